//! The tenants' words, which no lock guards, and the tenants' lines.
//!
//! Used by: `parts`, `engine`, `new_parts`, `figures`. Change it with `specs/LinesOfWorld` and `specs/Lines`.
ghost use Rattle.std.specs.Prelude.{◌≡◌, map};
ghost use Rattle.mw_core.specs.FromTable.{openings_of};
ghost use Rattle.mw_engine.specs.LinesOfWorld.{Agrees, places_told};
ghost use Rattle.mw_engine.specs.Lines.{HasFewPlaces, line_of, places_of};

use crate::tenant_line::Listed;
use arrayvec::ArrayVec;
use mw_core::Core;
use mw_words::MAX_TENANTS;

/// The tenants' words and slots, which workers change by atomic steps alone. With them, whose they are: the
/// tenants' lines, and how many slots there are.
#[derive(Drop)]
pub struct TenantWords {
    pub(crate) core: Core,
    pub(crate) lines: ArrayVec<Listed, MAX_TENANTS>,
    pub(crate) pool: u16,
    ghost agrees: { Agrees core.shared.table.shared.key (map line_of lines.items) pool },
    ghost places_are: { map places_of lines.items ≡ map places_told (openings_of core.shared.table.shared.key) },
    ghost few_places: { HasFewPlaces lines.items },
}
