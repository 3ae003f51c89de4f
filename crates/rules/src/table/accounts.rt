// The last token of each account. An account is lent out of its table's array, and changed where it stands.
ghost use Rattle.std.specs.Prelude.{◌≡◌};
ghost use Rattle.rules.specs.Tables.{last_token, token_used};

use crate::tables::{Account, Accounts};

impl Account {
    // The token is the account's last from now on.
    fn accept_token(&mut self, token: u32)
        ensures { self.new ≡ record { name = self.old.name; last = token } }
    {
        self.last = token;
    }
}

impl Accounts {
    pub fn last_token(&self, k: usize) -> u32
        ensures { result ≡ last_token k self.now }
    {
        self.at(k).last
    }

    // The account of a number accepts a token, and no other does; none does where the number has no account.
    pub fn accept(&mut self, k: usize, token: u32)
        ensures { self.new ≡ token_used k token self.old }
    {
        // By index: of what `get_mut` lends out of a slice, a proof knows the length alone.
        if k < self.count {
            let account = &mut self.all[k];
            account.accept_token(token);
        }
    }
}
