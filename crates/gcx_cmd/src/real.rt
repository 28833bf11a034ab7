//! The call of the program, at the types of the real shelf and streams.
ghost use Rattle.std.specs.Prelude.{◌≡◌, None};
ghost use Rattle.std.specs.FinMap as map;
ghost use Rattle.gcx_words.specs.Words.{named};
ghost use Rattle.gcx_cmd.specs.Does.{Does};
ghost use Rattle.gcx_cmd.specs.World.{real_world};

use crate::{Status, gcx_main};
use buf_tree::Row;
use gcx_base::Text;
use gcx_io::{FileShelf, StdErr, StdOut};
use raw_nodes::RawNodes;
use std::alloc::Global;

/// Runs one command line over the files of the system and the standard streams. What is seen of them is the calls that
/// they answered. So, unless a write failed or memory ran out, what standard output took is exactly what the bytes that
/// QUERY's reads gave settle from those that DOC's gave.
pub fn gcx_files(
    alloc: Global,
    words: &[Text],
    files: &mut FileShelf<HostRuntime>,
    out: &mut StdOut,
    err: &mut StdErr,
    nodes: &mut RawNodes<Row>,
) -> Status
    requires new { (nodes.old.rows ≡ map.empty) × (nodes.old.most ≡ 0) }
    ensures does { Does words.now result
        (real_world files.old out.old err.old nodes.old.rows nodes.old.most)
        (real_world files.new out.new err.new nodes.new.rows nodes.new.most) }
    ensures unnamed { named words.now ≡ None → result ≡ Status.Usage }
{
    gcx_main(alloc, words, files, out, err, nodes)
}
