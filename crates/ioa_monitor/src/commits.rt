//! How many actions each worker recorded, written on a paper.

ghost use Rattle.std.specs.Prelude.{◌≡◌, ◌++◌, codes};
ghost use Rattle.std.specs.Fmt.{decimal};
ghost use Rattle.ioa_paper.specs.Papers.{and_text};
ghost use Rattle.ioa_monitor.specs.Reports.{commit_lines, commits_text};

use ioa_paper::Paper;
use ioa_record::Record;
use ioa_streams::Out;

/// Writes how many actions each worker recorded, worker 0 first, and their total.
pub fn put_commits<O: Out>(paper: &mut Paper<'_, O>, run_record: &Record)
    ensures { paper.new ≡ and_text paper.old (commits_text run_record.now.commits.items) }
{
    put_commit_lines(paper, &run_record.commits);
    paper.put_line("total ", run_record.schedule.len());
}

/// Writes a line for each worker, worker 0 first.
fn put_commit_lines<O: Out>(paper: &mut Paper<'_, O>, commits: &[u64])
    ensures { paper.new ≡ and_text paper.old (commit_lines 0 commits.now) }
{
    for (worker, count) in commits.iter().enumerate() {
        put_commit_line(paper, worker, *count);
    }
}

/// Writes how many actions a worker recorded.
fn put_commit_line<O: Out>(paper: &mut Paper<'_, O>, worker: usize, count: u64)
    ensures { paper.new ≡ and_text paper.old
        (codes "worker " ++ (decimal worker ++ (codes " commits " ++ (decimal count ++ codes "\n")))) }
{
    paper.put("worker ");
    paper.put_number(worker);
    paper.put(" commits ");
    paper.put_number(count);
    paper.put("\n");
}
