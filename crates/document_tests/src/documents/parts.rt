//! Parts of documents that are whole in a piece, and the same parts cut at each byte.
ghost use Rattle.std.specs.Prelude.{◌≡◌, ◌≤◌, length};
ghost use Rattle.doc_reader.specs.Standing.{IsOpen};

use super::limits::small;
use super::{put_end, put_waiting};
use doc_reader::Reader;
use gcx_base::Limits;
use gcx_model::DocFault;
use std::alloc::{AllocError, Global};
use std::process::Abort;
use std::test::Fail;

/// Feeds bytes in pieces of so many bytes, and takes the tokens that wait behind each.
fn feed_in(
    reader: &mut Reader,
    bytes: &[u8],
    size: usize,
    out: &mut Vec<u8>,
) -> Result<(), AllocError>
    requires open { IsOpen reader.old }
    requires size { 1 ≤ size }
    ensures { IsOpen reader.new }
{
    for piece in bytes.chunks(size) {
        let _ = reader.feed(piece);
        put_waiting(reader, out)?;
    }
    Ok(())
}

/// Feeds both in pieces of so many bytes, with a bar behind the tokens of each.
fn feed_both(
    reader: &mut Reader,
    front: &[u8],
    rest: &[u8],
    size: usize,
    out: &mut Vec<u8>,
) -> Result<(), AllocError>
    requires open { IsOpen reader.old }
    requires size { 1 ≤ size }
{
    feed_in(reader, front, size, out)?;
    out.push(b'|')?;
    feed_in(reader, rest, size, out)?;
    out.push(b'|')?;
    Ok(())
}

/// The same, and then the end of the document. Gives the fault.
fn read_both(
    reader: &mut Reader,
    front: &[u8],
    rest: &[u8],
    size: usize,
    out: &mut Vec<u8>,
) -> Result<Option<DocFault>, Fail>
    requires open { IsOpen reader.old }
    requires size { 1 ≤ size }
{
    feed_both(reader, front, rest, size, out)?;
    put_end(reader, out)
}

/// The same with a reader of its own.
fn put_given(
    alloc: Global,
    limits: Limits,
    front: &[u8],
    rest: &[u8],
    size: usize,
    out: &mut Vec<u8>,
) -> Result<Option<DocFault>, Fail>
    requires depth { limits.depth ≤ 1000 }
    requires bytes { limits.bytes ≤ 1099511627776 }
    requires size { 1 ≤ size }
{
    let mut reader = Reader::new(alloc, limits);
    read_both(&mut reader, front, rest, size, out)
}

/// The tokens behind the front, those behind the rest and the fault, where both come in pieces of so many bytes.
fn given(
    alloc: Global,
    limits: Limits,
    front: &[u8],
    rest: &[u8],
    size: usize,
) -> Result<(Vec<u8>, Option<DocFault>), Fail>
    requires depth { limits.depth ≤ 1000 }
    requires bytes { limits.bytes ≤ 1099511627776 }
    requires size { 1 ≤ size }
{
    let mut out = Vec::new(alloc);
    let fault = put_given(alloc, limits, front, rest, size, &mut out)?;
    Ok((out, fault))
}

/// Where the document is cut here, the tokens behind each half are those that come where it is read byte by byte.
fn is_given_alike(
    rt: &impl Abort,
    alloc: Global,
    limits: Limits,
    document: &[u8],
    cut: usize,
) -> Result<(), Fail>
    requires depth { limits.depth ≤ 1000 }
    requires bytes { limits.bytes ≤ 1099511627776 }
    requires cut { cut ≤ length document.now }
{
    let (front, rest) = document.split_at(cut);
    let whole = given(alloc, limits, front, rest, document.len().max(1))?;
    let single = given(alloc, limits, front, rest, 1)?;
    assert_eq!(rt; whole, single, "{document:?} {cut}");
    Ok(())
}

/// The same wherever the document is cut in two.
fn are_given_alike(
    rt: &impl Abort,
    alloc: Global,
    limits: Limits,
    document: &[u8],
) -> Result<(), Fail>
    requires depth { limits.depth ≤ 1000 }
    requires bytes { limits.bytes ≤ 1099511627776 }
{
    for cut in 0..=document.len() {
        is_given_alike(rt, alloc, limits, document, cut)?;
    }
    Ok(())
}

#[test]
fn parts_are_read_alike(rt: HostRuntime) -> Result<(), Fail> {
    let rows: &[&str] = &[
        "<a><b>text</b><c d='e' f=\"g\"/><h i='j'>k</h></a>",
        "<a><b/>  <b />\n<b></b ><b\n></b></a>",
        "<a>1 &lt; 2 &gt; &amp;&quot;&apos; &#65;&#x41;</a>",
        "<a b='&lt;&gt;&amp;&quot;&apos;' c=\"'\" d='\"'/>",
        "<größe><名前 länge='ö &amp; ü'>Straße 名前</名前></größe>",
        "<a><!-- b -- > --><?b c?><![CDATA[]<&]]]>]]></a>",
        "<a><b></c></a>",
        "<a><ab></a></ab></a>",
        "<a><b></ab></a>",
        "<a><b c='1' c='2'/></a>",
        "<a><b c='<'/></a>",
        "<a><b c='\x01'/>\u{FFFE}</a>",
        "<a><b c='1'd='2'/></a>",
        "<a>&lt &amp</a>",
        "<a b = 'c' d= 'e' f ='g'></a>",
        "<a><9/></a>",
    ];
    for document in rows {
        are_given_alike(&rt, rt.alloc(), Limits::full(), document.as_bytes())?;
    }
    Ok(())
}

#[test]
fn parts_keep_to_the_limits(rt: HostRuntime) -> Result<(), Fail> {
    let rows: &[&str] = &[
        "<a><b/><b></b><b><c/></b></a>",
        "<a><b/><bcde/></a>",
        "<a bcd='1'/>",
        "<a bcde='1'/>",
        "<a><b c='1'/></a>",
        "<a b='1234'>1234</a>",
        "<a b='12345'/>",
        "<a>12345</a>",
        "<a>123&lt;</a>",
        "<a>1234&lt;</a>",
        "<a>öö</a>",
        "<a>öö1</a>",
        "<a>123ö</a>",
        "<öa/>",
        "<öö/>",
    ];
    for document in rows {
        are_given_alike(&rt, rt.alloc(), small(1000), document.as_bytes())?;
        are_given_alike(&rt, rt.alloc(), small(9), document.as_bytes())?;
    }
    Ok(())
}

/// An attribute without a value, whose name is the one of this number.
fn put_attribute(tag: &mut Vec<u8>, number: u8) -> Result<(), AllocError> {
    tag.extend_from_slice(&[
        b' ',
        b'b' + number % 20,
        b'a' + number / 20,
        b'=',
        b'"',
        b'"',
    ])
}

/// The front of a tag with 40 attributes.
fn forty(alloc: Global) -> Result<Vec<u8>, AllocError> {
    let mut tag = b"<a".to_vec(alloc)?;
    for number in 0..40u8 {
        put_attribute(&mut tag, number)?;
    }
    Ok(tag)
}

/// A tag with 40 attributes and no more.
fn whole_tag(alloc: Global) -> Result<Vec<u8>, AllocError> {
    let mut tag = forty(alloc)?;
    tag.extend_from_slice(b"/>")?;
    Ok(tag)
}

#[test]
fn many_attributes_are_given_alike(rt: HostRuntime) -> Result<(), Fail> {
    let tag = whole_tag(rt.alloc())?;
    are_given_alike(&rt, rt.alloc(), Limits::full(), &tag)
}

#[test]
fn many_attributes_are_told_apart(rt: HostRuntime) -> Result<(), Fail> {
    let tag = whole_tag(rt.alloc())?;
    let mut reader = Reader::new(rt.alloc(), Limits::full());
    assert!(rt; reader.feed(&tag).is_ok() && reader.finish().is_ok());
    Ok(())
}

/// The front of a tag, and behind it the attribute of this number.
fn tag_with(alloc: Global, front: &[u8], number: u8) -> Result<Vec<u8>, AllocError> {
    let mut tag = front.to_vec(alloc)?;
    put_attribute(&mut tag, number)?;
    tag.extend_from_slice(b"/>")?;
    Ok(tag)
}

/// What a new reader says of the bytes, before their end.
fn fed(alloc: Global, bytes: &[u8]) -> Result<(), DocFault> {
    Reader::new(alloc, Limits::full()).feed(bytes)
}

#[test]
fn one_of_many_attributes_comes_twice(rt: HostRuntime) -> Result<(), Fail> {
    let front = forty(rt.alloc())?;
    let fault = DocFault::Syntax(front.len() as u64 + 3);
    for number in &[0u8, 15, 16, 17, 39] {
        let twice = tag_with(rt.alloc(), &front, *number)?;
        assert_eq!(rt; fed(rt.alloc(), &twice), Err(fault), "{number}");
    }
    Ok(())
}
