// What of a book can change during the day: its state and its reference yield.
ghost use Rattle.std.specs.Prelude.{◌≡◌};
ghost use Rattle.rules.specs.Register.{Computes, adjusted};
ghost use Rattle.rules.specs.Tables.{is_book, state_set, reference_set};

use crate::tables::{Book, Books};
use fields::letters::BookState;

impl Books {
    pub fn set_state(&mut self, code: u32, state: BookState)
        ensures { self.new ≡ state_set code state self.old }
    {
        self.change(code, |book| Book { state, ..book });
    }

    pub fn set_reference(&mut self, code: u32, rate: i32)
        ensures { self.new ≡ reference_set code rate self.old }
    {
        self.change(
            code,
            |book| Book {
                reference: rate,
                ..book
            },
        );
    }

    // Changes each book under the code; no second one is loaded.
    fn change<F: Fn(Book) -> Book>(&mut self, code: u32, changed: F)
        requires { F.IsAlwaysCallable changed }
        ensures { (f : Book → Book) → Computes (F.post changed) f → self.new ≡ adjusted (is_book code) f self.old }
    {
        for book in &mut self.all[..self.count] {
            if book.code == code {
                *book = changed(*book);
            }
        }
    }
}
