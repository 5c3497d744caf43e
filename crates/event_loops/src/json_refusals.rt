//! A connection on which the refusals that hyper's server writes by itself have a JSON body.
ghost use Rattle.std.specs.Prelude.{⊤, ◌≤◌, length, IfSome};

use futures::ready;
use futures::task::{Context, Poll};
use std::io;
use tokio::io::{AsyncRead, AsyncWrite};

/// The end of each refusal that hyper writes by itself, behind the status line.
const REFUSAL_END: &[u8] = b"\r\nconnection: close\r\ncontent-length: 0\r\n\r\n";

/// A connection of a server.
#[derive(Drop)]
pub struct JsonRefusals<I> {
    inner: I,
    /// How much is written of a refusal that stands for hyper's.
    said: usize,
}

impl<I> JsonRefusals<I> {
    pub(crate) fn new(inner: I) -> JsonRefusals<I> {
        JsonRefusals { inner, said: 0 }
    }
}

impl<I: AsyncRead> AsyncRead for JsonRefusals<I> {
    ghost needs = { λ s. I.needs s.inner };

    ghost reads = { λ _ _ _. ⊤ };

    ghost is_at_end = { λ _. ⊤ };

    ghost reads_nothing = { λ _. tt };

    ghost reads_in_order = { λ _ _ _ _ _ _ _. tt };

    fn poll_read(&mut self, cx: &mut Context<'_>, buf: &mut [u8]) -> Poll<io::Result<usize>> {
        self.inner.poll_read(cx, buf)
    }
}

impl<I: AsyncWrite> AsyncWrite for JsonRefusals<I> {
    ghost needs = { λ s. I.needs s.inner };

    ghost writes = { λ _ _ _. ⊤ };

    ghost writes_nothing = { λ _. tt };

    ghost writes_in_order = { λ _ _ _ _ _ _ _. tt };

    fn poll_write(&mut self, cx: &mut Context<'_>, buf: &[u8]) -> Poll<io::Result<usize>> {
        let Some((front, text)) = refusal_in(buf) else {
            return self.inner.poll_write(cx, buf);
        };
        if !front.is_empty() {
            return self.inner.poll_write(cx, front);
        }
        let left = text.get(self.said..).unwrap_or(b"");
        match ready!(self.inner.poll_write(cx, left)) {
            Ok(count) if count < left.len() => {
                self.said = self.said.saturating_add(count);
                cx.yield_now()
            }
            Ok(_) => Poll::Ready(Ok(buf.len())),
            Err(e) => Poll::Ready(Err(e)),
        }
    }

    fn poll_flush(&mut self, cx: &mut Context<'_>) -> Poll<io::Result<()>> {
        self.inner.poll_flush(cx)
    }

    fn poll_shutdown(&mut self, cx: &mut Context<'_>) -> Poll<io::Result<()>> {
        self.inner.poll_shutdown(cx)
    }
}

/// What comes before a refusal of hyper's own, and the text that stands for it.
fn refusal_in(buf: &[u8]) -> Option<(&[u8], &'static [u8])>
    ensures { IfSome result (λ p. length p.0.now ≤ length buf.now) }
{
    let front = buf.strip_suffix(REFUSAL_END)?;
    if let Some(front) = front.strip_suffix(b"HTTP/1.1 400 Bad Request".as_slice()) {
        Some((
            front,
            b"HTTP/1.1 400 Bad Request\r\nconnection: close\r\ncontent-type: application/json\r\ncontent-length: 21\r\n\r\n{\"refused\":\"Request\"}",
        ))
    } else if let Some(front) = front.strip_suffix(b"HTTP/1.1 414 URI Too Long".as_slice()) {
        Some((
            front,
            b"HTTP/1.1 414 URI Too Long\r\nconnection: close\r\ncontent-type: application/json\r\ncontent-length: 21\r\n\r\n{\"refused\":\"Request\"}",
        ))
    } else if let Some(front) = front.strip_suffix(
        b"HTTP/1.1 431 Request Header Fields Too Large".as_slice(),
    ) {
        Some((
            front,
            b"HTTP/1.1 431 Request Header Fields Too Large\r\nconnection: close\r\ncontent-type: application/json\r\ncontent-length: 21\r\n\r\n{\"refused\":\"Request\"}",
        ))
    } else {
        None
    }
}
