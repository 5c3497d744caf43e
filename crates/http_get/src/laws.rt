//! The law of a query's names.
ghost use Rattle.http_get.specs.Laws.{NamesAreAll};

/// The names of a query are those of the job's parameters and of the target's `__param_` labels, in byte order, each once.
pub fn names_law()
    ensures { NamesAreAll }
{}
