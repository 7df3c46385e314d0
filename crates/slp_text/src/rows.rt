ghost use Rattle.std.specs.Prelude.{◌≡◌};

use std::marker::Model;

/// Values in their order, which contracts see as a list.
pub struct Row<T> {
    items: Vec<T>,
}

impl<T: Drop> Drop for Row<T> {
    #[inline(always)]
    fn drop(self) {
        let Row { items: _ } = self;
    }
}

impl<T> Model for Row<T> {
    ghost use Rattle.std.specs.Prelude.{List};

    ghost Value = { List T };

    ghost view = { λ a. a.items.items };
}

impl<T> Row<T> {
    /// The row of these values. Takes no memory.
    pub fn wrap(items: Vec<T>) -> Row<T>
        ensures { result ≡ items.items }
    {
        Row { items }
    }

    /// The values in their order.
    pub fn as_slice(&self) -> &[T]
        ensures { result.now ≡ self.now }
    {
        &self.items
    }
}
