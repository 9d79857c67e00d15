//! The variables of nodes, written on a paper.

ghost use Rattle.std.specs.Prelude.{◌≡◌, ◌++◌, codes, map};
ghost use Rattle.ioa_source.specs.TextView.{variable_of};
ghost use Rattle.ioa_values.specs.Text.{text};
ghost use Rattle.ioa_paper.specs.Papers.{and_text};
ghost use Rattle.ioa_monitor.specs.Reports.{variable_line, variable_lines};

use ioa_paper::{Paper, put_value};
use ioa_source::Variable;
use ioa_streams::Out;
use ioa_terms::{Callee, Shape};
use ioa_values::{Names, Value};

/// Writes a node's variables with their values, in the order of their declaration.
pub fn put_variables<O: Out>(
    paper: &mut Paper<'_, O>,
    names: &Names,
    node: i64,
    values: &[Value],
    variables: &[Variable<usize, Callee, Shape>],
)
    ensures { paper.new ≡ and_text paper.old
        (variable_lines names.now node values.now (map variable_of variables.now)) }
{
    for (position, value) in values.iter().enumerate() {
        let Some(variable) = variables.get(position) else {
            return;
        };
        put_variable(paper, names, node, variable.declared.name.as_str(), value);
    }
}

/// Writes a variable with its value.
fn put_variable<O: Out>(
    paper: &mut Paper<'_, O>,
    names: &Names,
    node: i64,
    name: &str,
    value: &Value,
)
    ensures { paper.new ≡ and_text paper.old (variable_line names.now node name.now value.now) }
{
    paper.put("node ");
    paper.put_number(node);
    paper.put(" ");
    put_assigned(paper, names, name, value);
}

/// Writes a name with its value, to the end of a line.
fn put_assigned<O: Out>(paper: &mut Paper<'_, O>, names: &Names, name: &str, value: &Value)
    ensures { paper.new ≡ and_text paper.old
        (name.now ++ (codes " = " ++ (text names.now value.now ++ codes "\n"))) }
{
    paper.put(name);
    paper.put(" = ");
    put_value(paper, names, value);
    paper.put("\n");
}
