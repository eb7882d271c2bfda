//! The writer of a document.
//!
//! Not proved, only tested: that nothing more is written after a failed write. The clauses give
//! only that a prefix of the text was written.

ghost use Rattle.std.specs.Prelude.{◌≡◌, ◌≤◌, ◌<◌, ◌+◌, ◌++◌, [], ◌∷◌, IfSome, IfNone, vec_len, vec_capacity};
ghost use Rattle.oim_json.specs.Sinks.{SinkView};
ghost use Rattle.oim_json.specs.declared.layout.Layout.{Layout};
ghost use Rattle.oim_merge.specs.Histories.{refusals};
ghost use Rattle.oim_merge.specs.Merging.{EndsWith};
ghost use Rattle.oim_merge.specs.state.Steps.{Advances, Begins};
ghost use Rattle.oim_merge.specs.Writers.{IsBroken, IsWritten, given, whole_text, writing};
ghost use Rattle.oim_ring.specs.declared.item.Item.TheVariants as items;

use crate::progress::{DocumentProgress, MergeEnd, Standing};
use crate::remember::{Bytes, NoItems, Now, SinkState, WithBlock, WithEnding};
use ghost_value::GhostValue;
use oim_json::{Block, Layout, Sink, WriteFault, tail, write_all_of, write_members};
use oim_names::Items;
use oim_ring::{Ending, Item};
use oim_rows::TableFault;
use std::marker::Model;

/// Writes a document (xBRL-JSON 1.0) to a sink: its head, the facts of blocks up to the first
/// refused table, and the tail if no table is refused. After a failed write it writes nothing more.
/// Each call is given the sink, to which nothing else may write meanwhile.
///
/// Contracts see the layout, the head, the items so far, and the sink before the head and after the
/// last call. The type's invariant holds that the sink took the text of these items.
#[derive(Drop)]
pub struct DocumentWriter {
    layout: Layout,
    progress: DocumentProgress,
    head: GhostValue<Items<u8>>,
    items: GhostValue<Items<Item>>,
    before: GhostValue<SinkState>,
    sink: GhostValue<SinkState>,
}

impl Model for DocumentWriter {
    ghost use Rattle.oim_merge.specs.Writers.{WriterView, writing};

    ghost Value = { WriterView };

    ghost use Rattle.oim_merge.specs.state.Steps.{StandsAt};

    ghost view = { λ w. writing w.layout w.head.value w.items.value w.before.value w.sink.value };

    ghost invariant = { λ w. StandsAt (writing w.layout w.head.value w.items.value w.before.value w.sink.value) w.progress.any w.progress.standing };
}

impl DocumentWriter {
    /// Begins a document: writes its head.
    pub fn begin<W: Sink>(layout: Layout, head: &[u8], sink: &mut W) -> DocumentWriter
        ensures { result ≡ writing layout head.now [] (W.seen sink.old) (W.seen sink.new) }
    {
        let before = GhostValue::of(&Now { sink: &*sink });
        let progress = write_head(head, sink);
        DocumentWriter {
            layout,
            progress,
            head: GhostValue::of(&Bytes { bytes: head }),
            items: GhostValue::of(&NoItems),
            before,
            sink: GhostValue::of(&Now { sink: &*sink }),
        }
    }

    /// Takes a block of a table, and writes its facts if the document is still being written.
    pub fn put<W: Sink>(&mut self, block: &Block, sink: &mut W)
        requires { self.old.sink ≡ W.seen sink.old }
        ensures { self.new ≡ given self.old (items.Block block.now ∷ []) (W.seen sink.new) }
    {
        write_block(block, &mut self.progress, self.layout, sink);
        self.items = GhostValue::of(&WithBlock {
            before: &self.items,
            block,
        });
        self.sink = GhostValue::of(&Now { sink: &*sink });
    }

    /// Ends a table. If it is refused, appends its fault to `faults`, which must have room for it,
    /// and writes nothing more.
    pub fn end_table(&mut self, ending: Ending, faults: &mut Vec<TableFault>)
        requires { vec_len faults.old < vec_capacity faults.old }
        ensures items { self.new ≡ given self.old (items.Ending ending ∷ []) self.old.sink }
        ensures faults { faults.new.items ≡ faults.old.items ++ refusals (items.Ending ending ∷ []) }
        ensures count { vec_len faults.new ≤ vec_len faults.old + 1 }
        ensures room { vec_capacity faults.new ≡ vec_capacity faults.old }
    {
        note_ending(ending, &mut self.progress, faults);
        self.items = GhostValue::of(&WithEnding {
            before: &self.items,
            ending,
        });
    }

    /// Returns the fault of the failed write, if one failed. At `None` the text of the items so far
    /// is written, otherwise a prefix of it.
    pub fn fault(&self) -> Option<WriteFault>
        ensures written { IfNone result (IsWritten self.now) }
        ensures broken { IfSome result (λ fault. IsBroken self.now fault) }
    {
        match self.progress.standing {
            Standing::Broken(fault) => Some(fault),
            Standing::Open => None,
            Standing::Refused => None,
        }
    }

    /// Ends the document: writes the tail if no table was refused and no write failed.
    pub fn finish<W: Sink>(self, sink: &mut W) -> MergeEnd
        requires { self.sink ≡ W.seen sink.old }
        ensures { EndsWith self.before (W.seen sink.new) (whole_text self) (refusals self.items) result }
    {
        match self.progress.standing {
            Standing::Open => match write_all_of(sink, tail(self.layout)) {
                Ok(()) => MergeEnd::Complete,
                Err(fault) => MergeEnd::Write(fault),
            },
            Standing::Refused => MergeEnd::Refused,
            Standing::Broken(fault) => MergeEnd::Write(fault),
        }
    }
}

/// Writes the head.
fn write_head<W: Sink>(head: &[u8], sink: &mut W) -> DocumentProgress
    ensures { Begins head.now (W.seen sink.old) (W.seen sink.new) result }
{
    let standing = match write_all_of(sink, head) {
        Ok(()) => Standing::Open,
        Err(fault) => Standing::Broken(fault),
    };
    DocumentProgress {
        standing,
        any: false,
    }
}

/// Writes a block if the document is still being written. A block has at least one fact.
fn write_block<W: Sink>(
    block: &Block,
    progress: &mut DocumentProgress,
    layout: Layout,
    sink: &mut W,
)
    ensures { Advances progress.old progress.new layout (W.seen sink.old) (W.seen sink.new) (items.Block block.now ∷ []) }
{
    let any = block.count() > 0;
    match progress.standing {
        Standing::Open => match write_members(sink, layout, progress.any, block) {
            Ok(()) => progress.any = any,
            Err(fault) => progress.standing = Standing::Broken(fault),
        },
        Standing::Refused => {}
        Standing::Broken(_) => {}
    }
}

/// Records how a table ends. If it is refused, appends its fault, and the document is not written
/// further.
fn note_ending(ending: Ending, progress: &mut DocumentProgress, faults: &mut Vec<TableFault>)
    requires { vec_len faults.old < vec_capacity faults.old }
    ensures faults { faults.new.items ≡ faults.old.items ++ refusals (items.Ending ending ∷ []) }
    ensures count { vec_len faults.new ≤ vec_len faults.old + 1 }
    ensures room { vec_capacity faults.new ≡ vec_capacity faults.old }
    ensures advances { (layout : Layout) (sink : SinkView) → Advances progress.old progress.new layout sink sink (items.Ending ending ∷ []) }
{
    match ending {
        Ending::Closed => {}
        Ending::Refused(fault) => {
            faults.push_reserved(fault);
            match progress.standing {
                Standing::Open => progress.standing = Standing::Refused,
                Standing::Refused => {}
                Standing::Broken(_) => {}
            }
        }
    }
}
