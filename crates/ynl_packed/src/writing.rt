//! Fields added at the end of bytes.

ghost use Rattle.std.specs.Prelude.{◌≡◌, ◌++◌, ◌<◌, OnOk, length};
ghost use Rattle.ynl_packed.specs.Fits.{FitsName, FitsLabel, FitsLong, FitsPath, FitsSize, FitsId, FitsWhat, FitsProposal, FitsAmount};
ghost use Rattle.ynl_packed.specs.Spelling.{small_bytes, number_bytes, text_bytes, label_bytes, long_bytes, path_bytes, size_bytes, amount_bytes, id_bytes, what_bytes, proposal_bytes};

use std::alloc::{AllocError, Global};
use ynl_model::{Proposal, What};
use ynl_resource::{Id, Label, Name, Path, Resource, Size};

#[tactic(auto, unfolding(crate::specs::Spelling::small_bytes))]
pub(crate) fn put_small(bytes: &mut Vec<u8>, n: u32) -> Result<(), AllocError>
    ensures { OnOk result (bytes.new.items ≡ bytes.old.items ++ small_bytes n) }
{
    bytes.extend_from_slice(&n.to_be_bytes())
}

#[tactic(auto, unfolding(crate::specs::Spelling::number_bytes))]
pub(crate) fn put_number(bytes: &mut Vec<u8>, n: u64) -> Result<(), AllocError>
    ensures { OnOk result (bytes.new.items ≡ bytes.old.items ++ number_bytes n) }
{
    bytes.extend_from_slice(&n.to_be_bytes())
}

#[tactic(auto, unfolding(crate::specs::Spelling::text_bytes))]
pub(crate) fn put_text(bytes: &mut Vec<u8>, text: &[u8]) -> Result<(), AllocError>
    requires { length text.now < 256 }
    ensures { OnOk result (bytes.new.items ≡ bytes.old.items ++ text_bytes text.now) }
{
    bytes.push(text.len() as u8)?;
    bytes.extend_from_slice(text)
}

#[tactic(auto, using(ynl_resource::proofs::Ascii::utf8_name), unfolding(ynl_resource::specs::Texts::read_name))]
pub(crate) fn put_name(bytes: &mut Vec<u8>, name: &Name) -> Result<(), AllocError>
    ensures put { OnOk result (bytes.new.items ≡ bytes.old.items ++ text_bytes name.now) }
    ensures fits { FitsName name.now }
{
    put_text(bytes, name.as_bytes())
}

pub(crate) fn put_label(bytes: &mut Vec<u8>, label: &Label) -> Result<(), AllocError>
    ensures put { OnOk result (bytes.new.items ≡ bytes.old.items ++ label_bytes label.now) }
    ensures fits { FitsLabel label.now }
{
    match label {
        Label::Unlabelled => Ok(bytes.push(0)?),
        Label::Named(name) => put_name(bytes, name),
    }
}

#[tactic(auto, unfolding(crate::specs::Spelling::long_bytes))]
pub(crate) fn put_long(bytes: &mut Vec<u8>, text: &str) -> Result<(), AllocError>
    ensures put { OnOk result (bytes.new.items ≡ bytes.old.items ++ long_bytes text.now) }
    ensures fits { FitsLong text.now }
{
    put_number(bytes, text.len() as u64)?;
    bytes.extend_from_slice(text.as_bytes())
}

pub(crate) fn put_path(alloc: Global, bytes: &mut Vec<u8>, path: &Path) -> Result<(), AllocError>
    ensures put { OnOk result (bytes.new.items ≡ bytes.old.items ++ path_bytes path.now) }
    ensures fits { OnOk result (FitsPath path.now) }
{
    let text = path.text(alloc)?;
    put_long(bytes, text.as_str())
}

#[tactic(auto, unfolding(crate::specs::Spelling::size_bytes))]
pub(crate) fn put_size(bytes: &mut Vec<u8>, size: &Size) -> Result<(), AllocError>
    ensures put { OnOk result (bytes.new.items ≡ bytes.old.items ++ size_bytes size.now) }
    ensures fits { FitsSize size.now }
{
    let amount = size.amount();
    put_small(bytes, amount.memory as u32)?;
    put_small(bytes, amount.vcores as u32)
}

#[tactic(auto, unfolding(crate::specs::Spelling::amount_bytes))]
pub(crate) fn put_amount(bytes: &mut Vec<u8>, amount: &Resource) -> Result<(), AllocError>
    ensures put { OnOk result (bytes.new.items ≡ bytes.old.items ++ amount_bytes amount.now) }
    ensures fits { OnOk result (FitsAmount amount.now) }
{
    put_number(bytes, amount.memory)?;
    put_number(bytes, amount.vcores)
}

#[tactic(auto, unfolding(crate::specs::Spelling::id_bytes))]
pub(crate) fn put_id(bytes: &mut Vec<u8>, id: &Id) -> Result<(), AllocError>
    ensures put { OnOk result (bytes.new.items ≡ bytes.old.items ++ id_bytes id.now) }
    ensures fits { OnOk result (FitsId id.now) }
{
    put_label(bytes, &id.label)?;
    put_number(bytes, id.clock)
}

pub(crate) fn put_what(bytes: &mut Vec<u8>, what: &What) -> Result<(), AllocError>
    ensures put { OnOk result (bytes.new.items ≡ bytes.old.items ++ what_bytes what.now) }
    ensures fits { OnOk result (FitsWhat what.now) }
{
    match what {
        What::Master => Ok(bytes.push(0)?),
        What::Ask(label, priority) => {
            bytes.push(1)?;
            put_label(bytes, label)?;
            put_small(bytes, *priority)
        }
    }
}

#[tactic(auto, unfolding(crate::specs::Spelling::proposal_bytes))]
pub(crate) fn put_proposal(bytes: &mut Vec<u8>, proposal: &Proposal) -> Result<(), AllocError>
    ensures put { OnOk result (bytes.new.items ≡ bytes.old.items ++ proposal_bytes proposal.now) }
    ensures fits { OnOk result (FitsProposal proposal.now) }
{
    put_name(bytes, &proposal.node)?;
    put_number(bytes, proposal.stamp)?;
    put_name(bytes, &proposal.tenant)?;
    put_name(bytes, &proposal.app)?;
    put_what(bytes, &proposal.what)?;
    put_size(bytes, &proposal.size)
}
