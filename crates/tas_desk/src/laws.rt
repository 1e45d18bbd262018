//! The limits of histories, desks and exports are those of the definitions.

ghost use Rattle.std.specs.Prelude.{◌≡◌};
ghost use Rattle.tas_session.specs.declared.session.TheConstants.{MAX_EDITS};
ghost use Rattle.tas_desk.specs.declared.desk.TheConstants.{MAX_SEATS};
ghost use Rattle.tas_desk.specs.declared.export.TheConstants.{MAX_EXPORT};
ghost use Rattle.tas_desk.specs.declared.parts.TheConstants.{MAX_ENTRIES};
ghost use Rattle.tas_film.specs.declared.runs.TheConstants.{MAX_WORKERS};
ghost use Rattle.tas_published.specs.History.{most_edits};
ghost use Rattle.tas_desk.specs.Seats.{most_seats};
ghost use Rattle.tas_desk.specs.Exports.{most_exported};
ghost use Rattle.tas_desk.specs.Parts.{most_entries};
ghost use Rattle.tas_film.specs.Runs.{most_workers};

/// The limits are those of the definitions: 1,000,000 edits of a history, 256 of a part of it, 8 seats of a desk, 1,024 frames and
/// 16 workers of an export.
pub fn limits_are_exact()
    // Refused: at_most_7_seats.
    ensures edits { MAX_EDITS ≡ most_edits }
    ensures entries { MAX_ENTRIES ≡ most_entries }
    ensures seats { MAX_SEATS ≡ most_seats }
    ensures export { MAX_EXPORT ≡ most_exported }
    ensures workers { MAX_WORKERS ≡ most_workers }
{}
