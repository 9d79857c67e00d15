//! The numbers and the words that the language fixes, as one law. Definitions and code cite them by name, so no
//! other contract notices if one of them changes. It has no code.
//!
//! **A crate of its own**, since it stands on every crate that has such a number, and nothing waits for it.
//!
//! **Must not know**: how a limit is kept.
//!
//! **Laws**: `limits_law`.
#![tactic(auto)]

ghost use Rattle.std.specs.Prelude.{◌≡◌, codes};
ghost use Rattle.ioa_streams.specs.declared.input.TheConstants.{INPUT_LIMIT, SCHEDULE_LIMIT};
ghost use Rattle.ioa_text_reader.specs.Texts.{length_limit};
ghost use Rattle.ioa_term_reader.specs.declared.reading.TheConstants.{BRACKET_LIMIT};
ghost use Rattle.ioa_source.specs.declared.height.TheConstants.{HEIGHT_LIMIT};
ghost use Rattle.ioa_types.specs.declared.height.TheConstants.{SHAPE_LIMIT};
ghost use Rattle.ioa_sections.specs.declared.channels.TheConstants.{MOST_CHANNELS};
ghost use Rattle.ioa_sections.specs.declared.nodes.TheConstants.{MOST_NODES};
ghost use Rattle.ioa_schedules.specs.declared.turn.TheConstants.{TURN_LIMIT};
ghost use Rattle.ioa_record.specs.declared.options.TheConstants.{GREATEST_WORKERS, GREATEST_STEPS, GREATEST_ATTEMPTS};
ghost use Rattle.ioa_record.specs.declared.options.TheConstants.{DEFAULT_WORKERS, DEFAULT_STEPS, DEFAULT_ATTEMPTS};
ghost use Rattle.ioa_actions.specs.declared.action.TheConstants.{SEND, RECEIVE};

/// The limits, the defaults and the two words that the language gives a meaning are those of its reference
/// (profile): lengths in bytes, heights in levels, steps in actions, attempts in turns of a node.
pub fn limits_law()
    ensures input { INPUT_LIMIT ≡ 8388608 }
    ensures schedule { SCHEDULE_LIMIT ≡ 134217728 }
    ensures text { length_limit ≡ 1048576 }
    ensures brackets { BRACKET_LIMIT ≡ 128 }
    ensures heights { HEIGHT_LIMIT ≡ 64 }
    ensures shapes { SHAPE_LIMIT ≡ 64 }
    ensures nodes { MOST_NODES ≡ 64 }
    ensures channels { MOST_CHANNELS ≡ 256 }
    ensures turn { TURN_LIMIT ≡ 1000 }
    ensures workers { GREATEST_WORKERS ≡ 64 }
    ensures default_workers { DEFAULT_WORKERS ≡ 1 }
    ensures steps { GREATEST_STEPS ≡ 1000000 }
    ensures default_steps { DEFAULT_STEPS ≡ 10000 }
    ensures attempts { GREATEST_ATTEMPTS ≡ 1000000 }
    ensures default_attempts { DEFAULT_ATTEMPTS ≡ 1000 }
    ensures send { SEND.now ≡ codes "send" }
    ensures receive { RECEIVE.now ≡ codes "receive" }
{}
