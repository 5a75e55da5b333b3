//! The files of features and of contributions.
ghost use Rattle.std.specs.Prelude.{◌≡◌, ◌++◌, IfOk, OnOk};
ghost use Rattle.std.specs.List.{concat};
ghost use Rattle.mz_num.specs.Places.{list_below};
ghost use Rattle.mz_gen.specs.Features.{contrib_lines, contribs_text, feature_line, features_text};

use mz_num::{NoMemory, push_bytes, push_number};
use std::alloc::Global;

/// Each feature with what is asked of it.
#[tactic(auto, unfolding(crate::specs::Features::features_text))]
pub(crate) fn features_text(alloc: Global, features: u32) -> Result<Vec<u8>, NoMemory>
    ensures { IfOk result (λ text. text.items ≡ features_text features) }
{
    let mut text = Vec::from_slice(alloc, b"id,prop,spf,name\n")?;
    push_features(&mut text, features)?;
    Ok(text)
}

fn push_features(text: &mut Vec<u8>, features: u32) -> Result<(), NoMemory>
    ensures { OnOk result (text.new.items ≡ text.old.items ++ concat (list_below features feature_line)) }
{
    for feature in 0..features {
        push_feature(text, feature)?;
    }
    Ok(())
}

fn push_feature(text: &mut Vec<u8>, feature: u32) -> Result<(), NoMemory>
    ensures { OnOk result (text.new.items ≡ text.old.items ++ feature_line feature) }
{
    let id = u64::from(feature) + 1;
    push_number(text, id)?;
    push_bytes(text, b",0.3,1,f")?;
    push_number(text, id)?;
    push_bytes(text, b"\n")
}

/// What part of each feature's amounts counts in the second zone, and in the third.
#[tactic(auto, unfolding(crate::specs::Features::contribs_text))]
pub(crate) fn contribs_text(alloc: Global, features: u32) -> Result<Vec<u8>, NoMemory>
    ensures { IfOk result (λ text. text.items ≡ contribs_text features) }
{
    let mut text = Vec::from_slice(alloc, b"zoneid,featureid,fraction\n")?;
    push_contribs(&mut text, features)?;
    Ok(text)
}

fn push_contribs(text: &mut Vec<u8>, features: u32) -> Result<(), NoMemory>
    ensures { OnOk result (text.new.items ≡ text.old.items ++ concat (list_below features contrib_lines)) }
{
    for feature in 0..features {
        push_contribs_of(text, feature)?;
    }
    Ok(())
}

fn push_contribs_of(text: &mut Vec<u8>, feature: u32) -> Result<(), NoMemory>
    ensures { OnOk result (text.new.items ≡ text.old.items ++ contrib_lines feature) }
{
    let id = u64::from(feature) + 1;
    push_bytes(text, b"2,")?;
    push_number(text, id)?;
    push_bytes(text, b",0.5\n3,")?;
    push_number(text, id)?;
    push_bytes(text, b",1\n")
}
