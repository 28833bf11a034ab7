//! Queries answered by the plain evaluator itself.
ghost use Rattle.doc_reader.specs.Standing.{IsOpen};

use doc_reader::Reader;
use doc_tree::Tree;
use gcx_base::Limits;
use std::alloc::Global;
use std::process::Abort;
use std::test::Fail;
use tree_eval::answer_whole;
use xq_parse::parse;

/// A tree of the tokens that wait.
fn grown(alloc: Global, reader: &mut Reader) -> Result<Tree, Fail> {
    let mut tree = Tree::new(alloc)?;
    while let Some(token) = reader.next() {
        tree.take(token)?;
    }
    Ok(tree)
}

/// A tree of the whole document.
fn read(alloc: Global, reader: &mut Reader, document: &str) -> Result<Tree, Fail>
    requires { IsOpen reader.old }
{
    reader.feed(document.as_bytes())?;
    reader.finish()?;
    grown(alloc, reader)
}

/// The tree of a document.
fn tree(alloc: Global, document: &str) -> Result<Tree, Fail> {
    let mut reader = Reader::new(alloc, Limits::full());
    read(alloc, &mut reader, document)
}

/// The answer to the query over the tree.
fn answer(alloc: Global, query: &str, tree: &Tree) -> Result<Vec<u8>, Fail> {
    let query = parse(alloc, query.as_bytes())?;
    Ok(answer_whole(alloc, &query, tree)?)
}

/// The query has this answer over the tree.
fn is_answer(
    rt: &impl Abort,
    alloc: Global,
    tree: &Tree,
    query: &str,
    expected: &str,
) -> Result<(), Fail> {
    let found = answer(alloc, query, tree)?;
    assert_eq!(rt; found.as_slice(), expected.as_bytes(), "{query}");
    Ok(())
}

/// These queries have these answers over the document.
fn are_answers(
    rt: &impl Abort,
    alloc: Global,
    document: &str,
    rows: &[(&str, &str)],
) -> Result<(), Fail> {
    let tree = tree(alloc, document)?;
    for &(query, expected) in rows {
        is_answer(rt, alloc, &tree, query, expected)?;
    }
    Ok(())
}

/// A document, and queries with their answers over it.
type Answered = (&'static str, &'static [(&'static str, &'static str)]);

/// Paths are copied in document order.
const PATHS: &[Answered] = &[
    (
        "<a>1<b>2</b>3</a>",
        &[
            ("//text()", "123"),
            ("/a/node()", "1<b>2</b>3"),
            ("/a/*", "<b>2</b>"),
        ],
    ),
    (
        "<a><a><b/></a></a>",
        &[
            ("/a", "<a><a><b></b></a></a>"),
            ("//a", "<a><a><b></b></a></a><a><b></b></a>"),
            ("/a//a", "<a><b></b></a>"),
            ("/a//b", "<b></b>"),
            ("/b", ""),
        ],
    ),
    (
        "<a>x &amp; &lt;y></a>",
        &[("/a", "<a>x &amp; &lt;y&gt;</a>")],
    ),
];

/// Loops nest.
const LOOPS: &[Answered] = &[
    (
        "<a><b>1</b><c/><b>2</b></a>",
        &[(
            "<r>{for $x in /a/b return $x}</r>",
            "<r><b>1</b><b>2</b></r>",
        )],
    ),
    (
        "<a><a><b/></a></a>",
        &[(
            "for $x in //a return for $y in $x//b return <h/>",
            "<h></h><h></h>",
        )],
    ),
    (
        "<r><p/><p><k/></p></r>",
        &[(
            "for $x in /r/p, $x in $x/k return ($x, <h/>)",
            "<k></k><h></h>",
        )],
    ),
    (
        "<r><x><k>1</k></x><y><k>1</k></y><y><k>2</k></y></r>",
        &[(
            "for $a in /r/x return for $b in /r/y where $a/k = $b/k return <m/>",
            "<m></m>",
        )],
    ),
];

/// Conditions hold.
const CONDITIONS: &[Answered] = &[
    (
        "<a><x><b><c/></b></x></a>",
        &[
            ("if (exists(/a//b/c)) then <y/> else <n/>", "<y></y>"),
            ("if (exists(/a/b/c)) then <y/> else <n/>", "<n></n>"),
            ("if (exists(//c//b)) then <y/> else <n/>", "<n></n>"),
        ],
    ),
    (
        "<r><p/><p><k/></p></r>",
        &[
            (
                "for $x in /r/p return if (exists($x/k)) then <y/> else <n/>",
                "<n></n><y></y>",
            ),
            (
                "for $x in /r/p return if (not(exists($x/k))) then <y/> else <n/>",
                "<y></y><n></n>",
            ),
            (
                "for $x in /r/p return if (true() and exists($x/k)) then <y/> else <n/>",
                "<n></n><y></y>",
            ),
            (
                "for $x in /r/p return if (exists($x/j) or exists($x/k)) then <y/> else <n/>",
                "<n></n><y></y>",
            ),
        ],
    ),
];

/// Values compare.
const VALUES: &[Answered] = &[
    (
        "<r><p>007</p><p>7x</p><p> 7 </p></r>",
        &[
            (
                "for $x in /r/p return if ($x = 7) then <y/> else <n/>",
                "<y></y><n></n><y></y>",
            ),
            (
                "for $x in /r/p return if ($x = \"7\") then <y/> else <n/>",
                "<n></n><n></n><n></n>",
            ),
            (
                "for $x in /r/p return if (8 > $x) then <y/> else <n/>",
                "<y></y><n></n><y></y>",
            ),
        ],
    ),
    (
        "<r><p>1000000000000000000000000000000000000000000</p><p>-0</p><p/></r>",
        &[(
            "for $x in /r/p return if ($x > 9) then <y/> else <n/>",
            "<y></y><n></n><n></n>",
        )],
    ),
];

/// These documents have these answers.
fn all_answer(rt: &impl Abort, alloc: Global, table: &[Answered]) -> Result<(), Fail> {
    for &(document, rows) in table {
        are_answers(rt, alloc, document, rows)?;
    }
    Ok(())
}

#[test]
fn queries_have_these_answers(rt: HostRuntime) -> Result<(), Fail> {
    for table in &[PATHS, LOOPS, CONDITIONS, VALUES] {
        all_answer(&rt, rt.alloc(), table)?;
    }
    Ok(())
}
