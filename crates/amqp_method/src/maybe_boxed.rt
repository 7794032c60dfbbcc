//! A value that lies where it is, or in a box.
ghost use Rattle.std.specs.Cmp.{on_equiv, on_per};
ghost use Rattle.amqp_method.specs.MaybeBoxed.{boxed_value};

use std::fmt;

/// A value, in a box or not. Which of the two it is doesn't show: values are equal, and print, as they do alone.
#[derive(Drop)]
pub(crate) enum MaybeBoxed<T: DropInBox> {
    Here(T),
    Boxed(Boxed<T>),
}

/// A large value, which is dropped where it lies in its box, part by part, and not moved out of it first.
pub(crate) trait DropInBox {
    fn drop_in_box(value: Box<Self>);
}

/// A box of a large value.
pub(crate) struct Boxed<T: DropInBox> {
    value: Box<T>,
}

impl<T: DropInBox> Drop for Boxed<T> {
    #[inline(always)]
    fn drop(self) {
        let Boxed { value } = self;
        T::drop_in_box(value);
    }
}

impl<T: DropInBox> Boxed<T> {
    ghost use Rattle.std.specs.Prelude.{◌≡◌};

    pub(crate) fn new(value: Box<T>) -> Boxed<T>
        ensures { result.value ≡ value }
    {
        Boxed { value }
    }

    fn into_inner(self) -> T
        ensures { result ≡ self.value.value }
    {
        let Boxed { value } = self;
        Box::into_inner(value)
    }
}

impl<T: DropInBox> MaybeBoxed<T> {
    ghost use Rattle.std.specs.Prelude.{◌≡◌};
    ghost use Rattle.amqp_method.specs.MaybeBoxed.{boxed_value};

    pub(crate) fn get(&self) -> &T
        ensures { result.now ≡ boxed_value self.now }
    {
        match self {
            MaybeBoxed::Here(value) => value,
            MaybeBoxed::Boxed(boxed) => boxed.value.as_ref(),
        }
    }

    pub(crate) fn into_inner(self) -> T
        ensures { result ≡ boxed_value self }
    {
        match self {
            MaybeBoxed::Here(value) => value,
            MaybeBoxed::Boxed(boxed) => boxed.into_inner(),
        }
    }
}

impl<T: PartialEq + DropInBox> PartialEq for MaybeBoxed<T> {
    ghost eq = { λ x y. T.PartialEq.eq (boxed_value x) (boxed_value y) };

    ghost laws = { on_per boxed_value T.PartialEq.laws };

    fn eq(&self, other: &Self) -> bool {
        *self.get() == *other.get()
    }
}

impl<T: Eq + DropInBox> Eq for MaybeBoxed<T> {
    ghost laws = { on_equiv boxed_value T.Eq.laws };
}

impl<T: fmt::Debug + DropInBox> fmt::Debug for MaybeBoxed<T> {
    fn fmt<W: fmt::Write>(&self, f: &mut fmt::Formatter<W>) -> fmt::Result {
        fmt::Debug::fmt(self.get(), f)
    }
}
