//! A law of matching.
ghost use Rattle.agent_documents.specs.Series.{SeriesDecides};

/// Two label sets are one series only where they are equal: so a report is of no other series than the target's.
pub fn series_decides()
    ensures { SeriesDecides }
{}
