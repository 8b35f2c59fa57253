//! What whoever holds a page can prove of it by its type alone.
ghost use Rattle.std.specs.Prelude.{◌≡◌, ◌≤◌, length, nat_eq};
ghost use Rattle.page.specs.Buffers.{page_of};

use page::PageBuf;

/// Whether a page is a leaf. Its entries are not read, and are known to be at most 18.
pub fn is_leaf(buf: &PageBuf) -> bool
    ensures said { result ≡ nat_eq (page_of buf.now).level 0 }
    ensures few { length (page_of buf.now).entries ≤ 18 }
{
    buf.level == 0
}
