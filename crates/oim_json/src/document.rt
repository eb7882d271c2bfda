//! The text before and after the members of a document.

ghost use Rattle.std.specs.Prelude.{◌≡◌, ◌++◌, IfOk, OnOk};
ghost use Rattle.oim_json.specs.Document.{tail_text};
ghost use Rattle.oim_json.specs.JsonText.{base_url_text, head_text};

use crate::layout::Layout;
use crate::write::{push_bindings, push_joined, push_text};
use oim_names::Text;
use oim_report::Report;
use std::alloc::{AllocError, Global};

/// The text after the members of a compact document: two closing braces and a line feed.
pub const TAIL: &[u8] = b"}}\n";

/// Returns the text after the members: `TAIL`, after a line feed if the layout is in lines.
pub fn tail(layout: Layout) -> &'static [u8]
    ensures { result.now ≡ tail_text layout }
{
    match layout {
        Layout::Compact => TAIL,
        Layout::Lines => b"\n}}\n",
    }
}

/// Returns the text before the members, on one line: the report's information (xBRL-JSON 1.0,
/// documentInfo).
pub fn head(alloc: Global, report: &Report) -> Result<Vec<u8>, AllocError>
    ensures { IfOk result (λ bytes. bytes.items ≡ head_text report.now) }
{
    let mut out = Vec::from_slice(alloc, b"{\"documentInfo\":{")?;
    push_base_url(alloc, &mut out, &report.info().base_url)?;
    out.extend_from_slice(
        b"\"documentType\":\"https://xbrl.org/2021/xbrl-json\",\"namespaces\":{",
    )?;
    push_bindings(alloc, &mut out, report.namespaces())?;
    out.extend_from_slice(b"},\"taxonomy\":[")?;
    push_joined(alloc, &mut out, report.info().taxonomy.as_slice())?;
    out.extend_from_slice(b"]},\"facts\":{")?;
    Ok(out)
}

#[tactic(auto, using(std::proofs::Common::append_assoc), unfolding(crate::specs::JsonText::base_url_text))]
fn push_base_url(alloc: Global, out: &mut Vec<u8>, url: &Option<Text>) -> Result<(), AllocError>
    ensures { OnOk result (out.new.items ≡ out.old.items ++ base_url_text url.now) }
{
    if let Some(url) = url {
        out.extend_from_slice(b"\"baseURL\":")?;
        push_text(alloc, out, url.as_str())?;
        out.push(b',')?;
    }
    Ok(())
}
