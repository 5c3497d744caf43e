//! Laws above the definitions.
ghost use Rattle.core_history.specs.Laws.{RenewedReadBack};

/// Of a renewed state nothing is left out but of how many rounds reports are booked, which another member of a first line says: its
/// history, as `write_history` writes it, says that very state with reports of one round. Its allocation names
/// known targets, in ascending order, and live collectors.
pub fn renewed_read_back()
    ensures { RenewedReadBack }
{}
