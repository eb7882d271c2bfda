//! Calls of `oim_json`.

use crate::held::{Library, NIL_FACT, holds, nil_block, nil_fact};
use oim_json::{
    Block, Layout, Marked, Member, Sink, TAIL, block_of, fact_lists_are_one_line,
    facts_are_one_line, head, lines_are_members, member_of, tail, write_all_of, write_members,
};
use oim_meta::Report;
use oim_names::{Items, Text};
use oim_resolve::Fact;
use std::alloc::{AllocError, Global};
use std::io;
use std::io::Write;

/// Returns the text of facts, with commas between them.
fn text_of(alloc: Global, facts: &[Fact]) -> Result<Option<Block>, AllocError> {
    if facts.is_empty() || facts.len() > 256 {
        return Ok(None);
    }
    Ok(Some(block_of(alloc, facts)?))
}

/// Returns whether a block has only the fact without a value.
fn is_block(block: &Block) -> bool {
    block.count() == 1 && block.text(0).len() == NIL_FACT.len()
}

/// Returns whether a fact has this text.
fn is_member(alloc: Global, fact: &Fact, text: &[u8]) -> bool {
    let member: Result<Member, AllocError> = member_of(alloc, fact);
    match member {
        Ok(member) => member.bytes() == text,
        Err(_) => false,
    }
}

/// Returns whether the fact without a value has its text.
fn is_nil_member(alloc: Global) -> bool {
    match nil_fact(alloc) {
        Ok(fact) => is_member(alloc, &fact, NIL_FACT),
        Err(_) => false,
    }
}

/// A text that is longer than any spare vector for texts.
const LONG: &[u8] = &[b'x'; 10_000];

/// Returns whether a fact with this value has a text.
fn is_text_given(alloc: Global, id: Text, value: Text) -> bool {
    let fact = Fact::new(id, Some(value), Some(-2), Items::new(alloc));
    member_of(alloc, &fact).is_ok()
}

/// Returns whether a fact with this identifier and a long value has a text.
fn is_long_given(alloc: Global, id: Text) -> bool {
    match Text::from_str(alloc, str::from_utf8(LONG).unwrap_or("")) {
        Ok(value) => value.as_str().len() == LONG.len() && is_text_given(alloc, id, value),
        Err(_) => false,
    }
}

/// Returns whether a fact with a long value has a text.
fn is_long_member(alloc: Global) -> bool {
    match Text::from_str(alloc, "t1.r_1.note") {
        Ok(id) => is_long_given(alloc, id),
        Err(_) => false,
    }
}

#[test]
fn calls_of_texts(rt: HostRuntime) {
    facts_are_one_line();
    fact_lists_are_one_line();
    assert!(rt; is_nil_member(rt.alloc()) && is_long_member(rt.alloc()));
}

/// Returns whether a document of one block is written to a sink of any kind.
fn writes<W: Sink>(sink: &mut W, head: &[u8], block: &Block) -> bool {
    write_all_of(sink, head).is_ok()
        && write_members(sink, Layout::Compact, false, block).is_ok()
        && write_all_of(sink, tail(Layout::Compact)).is_ok()
}

/// Returns whether a vector takes the document and has the tail at its end.
fn is_written(alloc: Global, head: &[u8], block: &Block) -> bool {
    let mut document = Vec::new(alloc);
    let is_whole = writes(&mut Marked::new(&mut document), head, block);
    is_whole && document.as_slice().ends_with(TAIL)
}

/// Returns whether the document of a report and one fact is written.
fn is_document(alloc: Global, report: &Report, block: &Block) -> bool {
    match head(alloc, report) {
        Ok(head) => is_written(alloc, head.as_slice(), block),
        Err(_) => false,
    }
}

/// Returns whether the calls over a report answer as they must.
pub(crate) fn hold(alloc: Global, report: &Report) -> bool {
    match nil_block(alloc) {
        Ok(block) => is_block(&block) && is_document(alloc, report, &block),
        Err(_) => false,
    }
}

#[test]
fn calls_of_documents(rt: HostRuntime) {
    lines_are_members();
    assert!(rt; holds(rt.alloc(), Library::Blocks));
}

/// A writer that counts its calls and the bytes that it is offered. It fails at first, then takes
/// nothing, then two bytes, and after that all.
#[derive(Clone, Copy)]
struct Moody {
    calls: usize,
    offered: usize,
}

impl Write for Moody {
    fn write(&mut self, bytes: &[u8]) -> io::Result<usize> {
        self.calls = self.calls.saturating_add(1);
        self.offered = self.offered.saturating_add(bytes.len());
        match self.calls {
            1 => Err(io::Error::from(io::ErrorKind::Other)),
            2 => Ok(0),
            3 => Ok(bytes.len().min(2)),
            _ => Ok(bytes.len()),
        }
    }

    fn flush(&mut self) -> io::Result<()> {
        Ok(())
    }
}

/// Its answers to the first four calls.
const ANSWERS: &[Option<usize>] = &[None, Some(0), Some(2), Some(5)];

/// Returns the writer after a sink over it, if the sink passed each of its answers on and never
/// asked it for no bytes.
fn handed_on(writer: Moody) -> Option<Moody> {
    let mut sink = Marked::new(writer);
    for wanted in ANSWERS {
        if sink.write_some(b"abcde").ok() != *wanted {
            return None;
        }
    }
    if write_all_of(&mut sink, b"").is_ok() && write_all_of(&mut sink, b"abc").is_ok() {
        return Some(sink.into_writer());
    }
    None
}

/// Returns whether the writer was asked once for each answer, and for all the bytes.
fn is_asked_once() -> bool {
    let writer = Moody {
        calls: 0,
        offered: 0,
    };
    match handed_on(writer) {
        Some(writer) => writer.calls == 5 && writer.offered == 23,
        None => false,
    }
}

#[test]
fn a_sink_asks_its_writer_once(rt: HostRuntime) {
    assert!(rt; is_asked_once());
}

/// Adds the fact without a value 200 times.
fn push_facts(alloc: Global, facts: &mut Vec<Fact>) -> Result<(), AllocError> {
    for _ in 0..200u32 {
        facts.push(nil_fact(alloc)?)?;
    }
    Ok(())
}

/// Returns whether a writer takes the lines of these facts in two calls.
fn are_two_calls(alloc: Global, facts: &[Fact]) -> bool {
    let mut writer = Moody {
        calls: 3,
        offered: 0,
    };
    match text_of(alloc, facts) {
        Ok(Some(block)) => {
            let sink = &mut Marked::new(&mut writer);
            write_members(sink, Layout::Lines, false, &block).is_ok() && writer.calls == 5
        }
        _ => false,
    }
}

/// Returns whether lines of more than 8,192 bytes go to a writer in two calls.
fn are_chunks(alloc: Global) -> bool {
    let mut facts = Vec::new(alloc);
    push_facts(alloc, &mut facts).is_ok() && are_two_calls(alloc, facts.as_slice())
}

#[test]
fn lines_are_written_a_chunk_at_a_time(rt: HostRuntime) {
    assert!(rt; are_chunks(rt.alloc()));
}
