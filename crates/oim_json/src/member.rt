//! The text of one fact.

ghost use Rattle.std.specs.Prelude.{◌≡◌, ◌++◌, IfOk, OnOk};
ghost use Rattle.oim_json.specs.JsonText.{decimals_text, member_text};
ghost use Rattle.oim_json.specs.Lines.{IsOneLine};

use crate::write::{push_integer, push_joined, push_text, push_value};
use oim_resolve::Fact;
use std::alloc::{AllocError, Global};
use std::marker::Model;
use std::snapshot::Snapshot;

/// The text of a fact. A contract sees the fact. The member itself keeps only its text.
#[derive(Drop)]
pub struct Member {
    bytes: Vec<u8>,
    fact: Snapshot<Fact>,
}

impl Model for Member {
    ghost use Rattle.std.specs.Prelude.{◌≡◌};
    ghost use Rattle.oim_resolve.specs.FactParts.{FactParts};
    ghost use Rattle.oim_json.specs.JsonText.{member_text};

    ghost Value = { FactParts };

    ghost view = { λ m. m.fact.value };

    ghost invariant = { λ m. m.bytes.items ≡ member_text m.fact.value };
}

/// The initial capacity of a member in bytes, so that most do not move as they grow.
const MEMBER: usize = 512;

/// Makes the member of a fact (xBRL-JSON 1.0, the facts object).
pub fn member_of(alloc: Global, fact: &Fact) -> Result<Member, AllocError>
    ensures { IfOk result (λ m. m ≡ fact.now) }
{
    let mut bytes = Vec::with_capacity(alloc, MEMBER)?;
    push_member(alloc, &mut bytes, fact)?;
    Ok(Member {
        bytes,
        fact: Snapshot::of(fact),
    })
}

impl Member {
    /// Returns the text of the fact: its identifier and its object, without a line feed.
    pub fn bytes(&self) -> &[u8]
        ensures text { result.now ≡ member_text self.now }
        ensures one_line { IsOneLine result.now }
    {
        self.bytes.as_slice()
    }
}

/// Appends the text of a fact: its identifier and its object.
pub(crate) fn push_member(alloc: Global, out: &mut Vec<u8>, fact: &Fact) -> Result<(), AllocError>
    ensures { OnOk result (out.new.items ≡ out.old.items ++ member_text fact.now) }
{
    push_text(alloc, out, fact.id())?;
    out.extend_from_slice(b":{")?;
    push_decimals(out, fact.decimals())?;
    out.extend_from_slice(b"\"dimensions\":{")?;
    push_joined(alloc, out, fact.dimensions())?;
    out.extend_from_slice(b"},\"value\":")?;
    push_value(alloc, out, fact.value())?;
    out.push(b'}')?;
    Ok(())
}

fn push_decimals(out: &mut Vec<u8>, decimals: Option<i32>) -> Result<(), AllocError>
    ensures { OnOk result (out.new.items ≡ out.old.items ++ decimals_text decimals) }
{
    if let Some(places) = decimals {
        out.extend_from_slice(b"\"decimals\":")?;
        push_integer(out, places)?;
        out.push(b',')?;
    }
    Ok(())
}
