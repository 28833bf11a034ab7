//! Tokens that are lent, and taken a few at a time.
ghost use Rattle.std.specs.Prelude.{◌≡◌, ◌≤◌, length};
ghost use Rattle.doc_reader.specs.Standing.{IsOpen, AllLieWithin};

use super::limits::small;
use super::{put_token, single, told};
use doc_reader::{Lent, LentReader};
use gcx_base::Limits;
use gcx_model::DocFault;
use std::alloc::Global;
use std::process::Abort;
use std::test::Fail;

/// Puts the first tokens with names and texts of their own.
fn put_first(
    alloc: Global,
    out: &mut Vec<u8>,
    tokens: &[Lent],
    bytes: &[u8],
    count: usize,
) -> Result<(), Fail>
    requires parts { AllLieWithin 0 (length bytes.now) bytes.now tokens.now }
    requires count { count ≤ length tokens.now }
{
    for i in 0..count {
        let token = tokens[i].owned(alloc, bytes)?;
        put_token(out, &token)?;
    }
    Ok(())
}

/// Puts and takes the first `most` tokens that wait, or all of them.
fn take_some(
    alloc: Global,
    reader: &mut LentReader,
    most: usize,
    out: &mut Vec<u8>,
) -> Result<(), Fail>
    ensures { reader.new.finished ≡ reader.old.finished }
{
    let (tokens, bytes) = reader.lent();
    let count = tokens.len().min(most);
    let put = put_first(alloc, out, tokens, bytes, count);
    reader.take_lent(count);
    put
}

/// Feeds these pieces, and takes at most so many tokens behind each.
fn feed_each(
    alloc: Global,
    reader: &mut LentReader,
    pieces: &[&[u8]],
    most: usize,
    out: &mut Vec<u8>,
) -> Result<(), Fail>
    requires { IsOpen reader.old }
{
    for piece in pieces {
        let _ = reader.feed(piece);
        take_some(alloc, reader, most, out)?;
    }
    Ok(())
}

/// Takes the end of the document, where it is lent by itself.
fn take_end(reader: &mut LentReader, out: &mut Vec<u8>) -> Result<(), Fail> {
    let (tokens, _) = reader.lent();
    let count = tokens.len();
    let ends = matches!(tokens, [Lent::End]);
    reader.take_lent(count);
    if ends {
        out.push(b'$')?;
    }
    Ok(())
}

/// Ends the document, and takes all tokens that wait: those of tags first, and its end once.
fn take_all(
    alloc: Global,
    reader: &mut LentReader,
    out: &mut Vec<u8>,
) -> Result<Option<DocFault>, Fail> {
    let tags = reader.lent().0.len();
    let fault = reader.finish().err();
    if tags > 0 {
        take_some(alloc, reader, usize::MAX, out)?;
    }
    take_end(reader, out)?;
    take_end(reader, out)?;
    Ok(fault)
}

/// The tokens that are lent of a document in these pieces, at most so many of them behind each, and the fault at its end.
fn told_lent(
    alloc: Global,
    limits: Limits,
    pieces: &[&[u8]],
    most: usize,
) -> Result<(Vec<u8>, Option<DocFault>), Fail>
    requires depth { limits.depth ≤ 1000 }
    requires bytes { limits.bytes ≤ 1099511627776 }
{
    let mut reader = LentReader::new(alloc, limits);
    let mut out = Vec::new(alloc);
    feed_each(alloc, &mut reader, pieces, most, &mut out)?;
    let fault = take_all(alloc, &mut reader, &mut out)?;
    Ok((out, fault))
}

/// However many are taken behind each piece, they are those that are owned.
fn are_the_same(
    rt: &impl Abort,
    alloc: Global,
    limits: Limits,
    pieces: &[&[u8]],
) -> Result<(), Fail>
    requires depth { limits.depth ≤ 1000 }
    requires bytes { limits.bytes ≤ 1099511627776 }
{
    let owned = told(alloc, limits, pieces)?;
    for most in &[0usize, 1, 3, usize::MAX] {
        let lent = told_lent(alloc, limits, pieces, *most)?;
        assert_eq!(rt; lent, owned, "{pieces:?} {most}");
    }
    Ok(())
}

/// The same of the document byte by byte, and cut in two at every byte.
fn are_the_same_in_pieces(
    rt: &impl Abort,
    alloc: Global,
    limits: Limits,
    document: &[u8],
) -> Result<(), Fail>
    requires depth { limits.depth ≤ 1000 }
    requires bytes { limits.bytes ≤ 1099511627776 }
{
    are_the_same(rt, alloc, limits, &single(alloc, document)?)?;
    for cut in 0..=document.len() {
        let (front, rest) = document.split_at(cut);
        are_the_same(rt, alloc, limits, &[front, rest])?;
    }
    Ok(())
}

#[test]
fn lent_tokens_are_those_of_the_reader(rt: HostRuntime) -> Result<(), Fail> {
    let rows: &[&str] = &[
        "<a><b>text</b> <c d='e' f=\"g\" h=''/><i j='k'>l</i>\n</a>",
        "<a>1 &lt; 2<!-- 3 -->4<![CDATA[ ]]]>\n<b c='&amp;'/> </a>",
        "<größe><名前 länge='ö &amp; ü'>Straße 名前</名前></größe>",
        "<a b='1'><c/>1</b></a>",
        "<a><b c='1' c='2'/></a>",
        "<a>1<b/>2",
    ];
    for document in rows {
        are_the_same_in_pieces(&rt, rt.alloc(), Limits::full(), document.as_bytes())?;
        are_the_same_in_pieces(&rt, rt.alloc(), small(20), document.as_bytes())?;
    }
    Ok(())
}
