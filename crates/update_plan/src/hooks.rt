//! The functions that an update would run.
ghost use Rattle.std.specs.Prelude.{◌≡◌, IfOk};
ghost use Rattle.link_post.specs.Linked.{AreInOrder};
ghost use Rattle.update_plan.specs.Hooks.{function_at, hook_of, hooks_of};

use crate::types::{Hook, Hooks};
use hook_list::read_hooks;
use i386_reloc::{Normal, Ref, Target};
use ks_base::Name;
use link_post::{Placement, target_address};
use std::alloc::{AllocError, Global};
use symbol_table::Values;

/// The functions that the new object lists to be run at an update; none where it has no such list, or a broken one.
#[tactic(auto, unfolding(crate::specs::Hooks::hooks_of))]
pub(crate) fn hooks_of(
    alloc: Global,
    pre: &Normal<'_>,
    post: &Normal<'_>,
    placement: &Placement,
    values: &Values,
) -> Result<Hooks, AllocError>
    requires { AreInOrder post.now placement.now }
    ensures { IfOk result (λ hooks. hooks ≡ hooks_of pre.now post.now placement.now values.now.entries) }
{
    let mut hooks = Hooks::new(alloc);
    let Ok(Some(list)) = read_hooks(post) else {
        return Ok(hooks);
    };
    for number in 0..list.len() {
        let Some(reference) = list.get(number) else {
            unreachable!()
        };
        hooks.push(hook_of(alloc, pre, post, placement, values, reference)?)?;
    }
    Ok(hooks)
}

/// The function that a reference of the list goes to.
fn hook_of(
    alloc: Global,
    pre: &Normal<'_>,
    post: &Normal<'_>,
    placement: &Placement,
    values: &Values,
    reference: &Ref<'_>,
) -> Result<Hook, AllocError>
    requires { AreInOrder post.now placement.now }
    ensures { IfOk result
        (λ hook. hook ≡ hook_of pre.now post.now placement.now values.now.entries reference.now) }
{
    Ok(Hook {
        function: function_at(alloc, pre, post, &reference.target)?,
        address: target_address(alloc, post, placement, values, reference)?,
    })
}

/// The name of the function that a target is: the old object's, if it has the function, and else the new one's.
fn function_at(
    alloc: Global,
    pre: &Normal<'_>,
    post: &Normal<'_>,
    target: &Target<'_>,
) -> Result<Name, AllocError>
    ensures { IfOk result (λ name. name ≡ function_at pre.now post.now target.now) }
{
    let Target::Section(name) = target else {
        return Ok(Name::new(alloc));
    };
    match pre.find(name.as_slice()).or(post.find(name.as_slice())) {
        Some(section) => Name::from_slice(alloc, section.function_name()),
        None => Ok(Name::new(alloc)),
    }
}
