//! What a caller of `write_page` can prove by its contract and the page's type alone.
ghost use Rattle.std.specs.Prelude.{◌≡◌, ◌≢◌, ℕ, true};
ghost use Rattle.page.specs.Buffers.{page_of};
ghost use Rattle.page.specs.Pages.{words_of, is_there, page_run};

use page::{PageBuf, write_page};
use store::Store;

/// Writes a page that is there: its words are then those of its parts, and each other page is as it was.
pub fn put<S: Store>(store: &mut S, page: u64, buf: &PageBuf) -> bool
    requires { is_there (S.words store.old) page ≡ true }
    ensures back { page_run (S.words store.new) page ≡ words_of (page_of buf.now) }
    ensures beside { (other : ℕ) → other ≢ page → page_run (S.words store.new) other ≡ page_run (S.words store.old) other }
{
    write_page(store, page, buf)
}
