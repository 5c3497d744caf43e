//! What a collector's list tells is of one moment.
ghost use Rattle.sd_server.specs.Moments.{KeptAreOfOneMoment, ServedAreOfOneMoment, TakenAreOfOneMoment};

/// The number, the round and the targets of a list that a collector is told, and their groups, are those of one moment of the journal, which is
/// not before the request and has been seen: of a list that is served in order, of one that keeps what is to be let go, and of one that is taken,
/// where at each moment all that is held is known.
pub fn lists_are_of_one_moment()
    ensures served { ServedAreOfOneMoment }
    ensures kept { KeptAreOfOneMoment }
    ensures taken { TakenAreOfOneMoment }
{}
