//! What a run leaves in the store that it is lent.
use super::objects::{mem_files, mem_sink, texts};
use buf_tree::Row;
use gcx_cmd::{Status, gcx_main};
use node_store::{At, NodeStore};
use raw_nodes::RawNodes;
use std::test::Fail;

const COPIES: &[u8] = b"<r>{for $x in /a/b return $x}</r>";

/// The number of a row, whether it is open, and whether another one of the same parent comes after it.
type Kept = (u64, bool, bool);

/// The root's row, its first child's and so on: three at most.
fn chain(nodes: &RawNodes<Row>) -> [Option<Kept>; 3] {
    let mut found = [None; 3];
    let mut at = NodeStore::<Row>::root(nodes).map(|place| At::new(nodes, place));
    for slot in &mut found {
        if let Some(here) = at {
            let row = here.payload();
            *slot = Some((row.serial().0, !row.is_closed(), here.next().is_some()));
            at = here.first();
        }
    }
    found
}

#[test]
fn a_read_that_fails_leaves_the_open_elements(rt: HostRuntime) -> Result<(), Fail> {
    let alloc = rt.alloc();
    let words = texts(alloc, &[b"run", b"q", b"d"])?;
    // Four calls read the query and open the document, one reads its bytes.
    let mut files = mem_files(alloc, (COPIES, b"<a><b>1</b><c/>"), 65_536, Some(6))?;
    let mut out = mem_sink(alloc, 100, 65_536, None)?;
    let mut err = mem_sink(alloc, 100, 65_536, None)?;
    let mut nodes: RawNodes<Row> = RawNodes::new(alloc);
    let status = gcx_main(alloc, &words, &mut files, &mut out, &mut err, &mut nodes);
    assert!(&rt; out.is_whole());
    assert_eq!(&rt;
        (status, out.bytes()),
        (Status::ReadFault, b"<r><b>1</b>".as_slice())
    );
    assert_eq!(&rt;
        chain(&nodes),
        [Some((0, true, false)), Some((1, true, false)), None]
    );
    assert_eq!(&rt; NodeStore::<Row>::most(&nodes), 4);
    Ok(())
}
