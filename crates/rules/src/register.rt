// A register finds a record by its key, whatever the record and the key are.
ghost use Rattle.std.specs.Prelude.{◌≡◌, Bool};
ghost use Rattle.std.specs.List.{find};
ghost use Rattle.std.specs.Option.{option_map};

// A record that can be found by a key of type K.
pub trait Keyed<K> {
    ghost has: { Self → K → Bool };

    fn has_key(&self, key: &K) -> bool
        ensures { result ≡ has self.now key.now };
}

#[derive(Drop)]
pub struct Register<'a, R> {
    records: &'a [R],
}

impl<'a, R> Register<'a, R> {
    pub fn over(records: &'a [R]) -> Self
        ensures { result.records.now ≡ records.now }
    {
        Register { records }
    }

    // The first record that has the key.
    pub fn find<K>(&self, key: &K) -> Option<&'a R>
    where
        R: Keyed<K>,
        ensures { option_map (λ x. x.now) result ≡ find (λ x. R.has x key.now) self.now.records.now }
    {
        self.records.iter().find(|x| x.has_key(key))
    }
}
