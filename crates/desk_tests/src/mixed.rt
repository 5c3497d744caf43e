//! Lines of many threads.
use std::alloc::{AllocError, Global};

/// The line of a thread's step: collectors come, drain, are limited, take and go, targets come and go, rounds open.
pub(crate) fn line_of(alloc: Global, seat: u32, step: usize) -> Result<String, AllocError> {
    let collector = step.wrapping_mul(7).wrapping_add(seat as usize) % 40;
    match step % 8 {
        0 => format!(in alloc;
            "{{\"event\":\"join\",\"name\":\"c{collector}\",\"reach\":[{{\"allow\":true,\"test\":\"any\"}}]}}"
        ),
        1 => format!(in alloc;
            "{{\"event\":\"discover\",\"job\":\"j\",\"source\":0,\"targets\":[{{\"targets\":[\"h:{collector}\"]}},{{\"targets\":[\"g:{step}\"]}}]}}"
        ),
        2 => format!(in alloc;
            "{{\"event\":\"limits\",\"collector\":{collector},\"limits\":{{\"j\":{seat}}}}}"
        ),
        3 => format!(in alloc; "{{\"event\":\"take\",\"collector\":{collector}}}"),
        4 => format!(in alloc;
            "{{\"event\":\"report\",\"collector\":{collector},\"number\":{step},\"target\":{seat},\"round\":1,\"up\":true,\"samples\":5}}"
        ),
        5 => format!(in alloc; "{{\"event\":\"drain\",\"collector\":{collector}}}"),
        6 => format!(in alloc; "{{\"event\":\"leave\",\"collector\":{step}}}"),
        _ => String::from_str(alloc, "{\"event\":\"round\"}"),
    }
}
