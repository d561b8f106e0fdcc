//! The rules of assignments, associations and prohibitions, one by one.

ghost use Rattle.std.specs.Prelude.{◌≡◌, ◌++◌, not, ◌&&◌, ◌==◌, length};
ghost use Rattle.std.specs.List.{list_all};
ghost use Rattle.pm_policy.specs.Policy.{opening_docs};
ghost use Rattle.pm_model.specs.RightSet.{opening_rights};
ghost use Rattle.pm_sound.specs.Groups.{AreRuled};
ghost use Rattle.pm_sound.specs.Tells.{Tells};
ghost use Rattle.pm_sound.specs.Tests.{fits_association, fits_prohibition};

use crate::errors::{SoundError, need};
use crate::kinds::{are_places, is_subject, may_join};
use crate::once::{check_associated_once, check_once};
use crate::rights::are_rights;
use crate::standing::Standing;
use pm_policy::{DocAssociation, DocProhibition, Policy};
use pm_rights::RightNames;
use std::alloc::Global;

fn fits_association(standing: &Standing, rights: &RightNames, association: &DocAssociation) -> bool
    ensures { result ≡ fits_association standing.now rights.now association.now }
{
    may_join(standing, association) && are_rights(rights, association.rights.as_slice())
}

fn all_associations_fit(
    standing: &Standing,
    rights: &RightNames,
    associations: &[DocAssociation],
) -> bool
    ensures { result ≡ list_all (fits_association standing.now rights.now) associations.now }
{
    associations.iter().all(|association| fits_association(standing, rights, association))
}

fn is_ranged(prohibition: &DocProhibition) -> bool
    ensures { result ≡ not (length prohibition.now.inc == 0 && length prohibition.now.exc == 0) }
{
    prohibition.inc.len() > 0 || prohibition.exc.len() > 0
}

fn fits_prohibition(standing: &Standing, rights: &RightNames, prohibition: &DocProhibition) -> bool
    ensures { result ≡ fits_prohibition standing.now rights.now prohibition.now }
{
    is_subject(standing, &prohibition.subject)
        && are_rights(rights, prohibition.rights.as_slice())
        && are_places(standing, prohibition.inc.as_slice())
        && are_places(standing, prohibition.exc.as_slice())
        && is_ranged(prohibition)
}

fn all_prohibitions_fit(
    standing: &Standing,
    rights: &RightNames,
    prohibitions: &[DocProhibition],
) -> bool
    ensures { result ≡ list_all (fits_prohibition standing.now rights.now) prohibitions.now }
{
    prohibitions.iter().all(|prohibition| fits_prohibition(standing, rights, prohibition))
}

/// Whether the associations and the prohibitions keep their rules, where these elements and rights stand.
pub(crate) fn check_rules(
    alloc: Global,
    standing: &Standing,
    rights: &RightNames,
    policy: &Policy,
) -> Result<(), SoundError>
    requires elements { standing.now ≡ opening_docs ++ policy.now.elements }
    requires rights { rights.now ≡ opening_rights ++ policy.now.rights }
    ensures { Tells result (AreRuled policy.now) }
{
    let associations = policy.associations.as_slice();
    let prohibitions = policy.prohibitions.as_slice();
    need(all_associations_fit(standing, rights, associations))?;
    need(all_prohibitions_fit(standing, rights, prohibitions))?;
    check_associated_once(alloc, associations)?;
    check_once(alloc, prohibitions)
}
