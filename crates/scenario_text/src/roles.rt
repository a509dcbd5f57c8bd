//! What the names of an application stand for.

ghost use Rattle.std.specs.Prelude.{◌≡◌, ◌++◌, ◌∷◌, [], List, OnOk, false};
ghost use Rattle.std.specs.Option.{option_map};
ghost use Rattle.std.specs.Ordering.{nat_cmp};
ghost use Rattle.std.specs.Cmp.Lexicographic.{slice_cmp};
ghost use Rattle.std.specs.BTreeMap.{get_by};
ghost use Rattle.scenario_text.specs.Drafts as drafts;
ghost use Rattle.scenario_text.specs.declared.scenario.Step.{Step};

use crate::scenario::Step;
use crate::statement::Role;
use std::alloc::{AllocError, Global};
use std::collections::BTreeMap;

/// What the names of an application's are.
pub type Roles = BTreeMap<Vec<u8>, Role>;

/// What a name is.
pub(crate) fn role_of(roles: &Roles, name: &[u8]) -> Option<Role>
    ensures { (before : List Step) → drafts.AreRoles roles.now before → result ≡ drafts.role_of before name.now }
{
    roles.get(name).copied()
}

pub(crate) fn is_socket(roles: &Roles, name: &[u8]) -> bool
    ensures { (before : List Step) → drafts.AreRoles roles.now before
        → result ≡ drafts.is_socket (drafts.role_of before name.now) }
{
    matches!(role_of(roles, name), Some(Role::Socket))
}

pub(crate) fn is_listener(roles: &Roles, name: &[u8]) -> bool
    ensures { (before : List Step) → drafts.AreRoles roles.now before
        → result ≡ drafts.is_listener (drafts.role_of before name.now) }
{
    matches!(role_of(roles, name), Some(Role::Listener))
}

/// The listener or socket that a step brings, and what it is.
fn brings(step: &Step) -> Option<(&[u8], Role)>
    ensures { option_map (λ b. (b.0.now, b.1)) result ≡ drafts.brings step.now }
{
    match step {
        Step::Listen(name, _) => Some((name.as_slice(), Role::Listener)),
        Step::Accept(name, _) => Some((name.as_slice(), Role::Socket)),
        Step::Connect(name, _, _) => Some((name.as_slice(), Role::Socket)),
        _ => None,
    }
}

/// Whether a step brings a name that there is.
pub(crate) fn brings_again(roles: &Roles, step: &Step) -> bool
    ensures { (before : List Step) → drafts.AreRoles roles.now before
        → result ≡ drafts.brings_again before (drafts.brings step.now) }
{
    match brings(step) {
        Some((name, _)) => role_of(roles, name).is_some(),
        None => false,
    }
}

/// Takes the name of a step up, which there is not yet. The error is want of memory.
pub(crate) fn take_role(alloc: Global, roles: &mut Roles, step: &Step) -> Result<(), AllocError>
    ensures { OnOk result ((before : List Step) → drafts.AreRoles roles.old before
        → drafts.brings_again before (drafts.brings step.now) ≡ false
        → drafts.AreRoles roles.new (before ++ step.now ∷ [])) }
{
    if let Some((name, role)) = brings(step) {
        roles.insert(Vec::from_slice(alloc, name)?, role)?;
    }
    Ok(())
}
