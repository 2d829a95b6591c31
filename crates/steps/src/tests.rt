// The tests of Pi: 13 and 14 of its mapping, and 15 of its families.
ghost use Rattle.std.specs.Prelude.{◌≡◌};
ghost use Rattle.meaning.specs.Pi.{is_bijective, has_few_components};
ghost use Rattle.meaning.specs.Calls.{ensure};
ghost use Rattle.schema.specs.Decoded.{schema_of, category_of};
ghost use Rattle.mapping.specs.Decoded.{mapping_of};
ghost use Rattle.pi.specs.Components.{AllComponents};
ghost use Rattle.steps.specs.Answers.{verdict_of};
ghost use Rattle.steps.specs.Opened.{migration_of, Ready};
ghost use Rattle.steps.specs.Tests.{joinable};

use crate::open::Opened;
use crate::{Verdict, ensure};
use mapping::attributes::is_bijective;
use pi::components::Components;
use pi::families::Listing;
use pi::gather::has_few_components;
use schema::faults::Fault;

// Refuses with 13 where the attribute mapping is not a bijection, with 14 where a table has too many components.
pub fn check_joinable(opened: &Opened, k: &Components) -> Verdict
    requires { Ready opened.now × AllComponents opened.now.source opened.now.target opened.now.mapping opened.now.target.graph.nodes k.now }
    ensures { verdict_of result ≡ joinable (migration_of opened.now) }
{
    ensure(
        is_bijective(opened.source, opened.target, opened.mapping),
        Fault::Unpaired,
    )?;
    ensure(
        has_few_components(&k.count, opened.target.graph.nodes),
        Fault::Wide,
    )
}

// Refuses with 15 where the families do not fit.
pub fn check_listed(listing: &Listing) -> Verdict
    ensures { verdict_of result ≡ ensure listing.now.fits 15 }
{
    ensure(listing.fits, Fault::Overfull)
}
