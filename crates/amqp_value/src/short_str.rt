//! Short strings.

ghost use Rattle.std.specs.Prelude.{◌≡◌, ◌≤◌, ◌<◌, ◌↔◌, ◌⊎◌, length, take, IfOk, IfErr, IfSome, MatchOption, Err};
ghost use Rattle.std.specs.Str.{IsUtf8};
ghost use Rattle.std.specs.Prelude.{nat_eq, ◌==◌};
ghost use Rattle.std.specs.Cmp.{partial_equiv_from_equiv};
ghost use Rattle.std.specs.Cmp.Lexicographic.{pointwise, nat_list_eq_equiv};
ghost use Rattle.amqp_value.specs.Faults.{fault_at, out_of_memory};
ghost use Rattle.amqp_value.specs.declared.fault.ValueFaultKind.TheVariants.{TooLong};

use crate::display::write_quoted;
use crate::fault::{OutOfMemory, ValueFault, ValueFaultKind};
use crate::octets::Octets;
use std::alloc::{AllocError, Global};
use std::convert::AsSlice;
use std::marker::Model;
use std::{fmt, str};

/// At most 255 octets, any octets.
#[derive(Drop)]
pub struct ShortStr {
    text: Octets,
}

impl Model for ShortStr {
    ghost use Rattle.std.specs.Prelude.{ℕ, List, length, ◌≤◌};

    ghost Value = { List ℕ };

    ghost view = { λ s. s.text };

    ghost invariant = { λ s. length s.text ≤ 255 };
}

impl AsSlice<u8> for ShortStr {
    ghost items = { λ octets. octets };

    fn as_slice(&self) -> &[u8] {
        self.as_bytes()
    }
}

impl PartialEq for ShortStr {
    ghost eq = { pointwise nat_eq };

    ghost laws = { partial_equiv_from_equiv nat_list_eq_equiv };

    fn eq(&self, other: &ShortStr) -> bool {
        self.as_bytes() == other.as_bytes()
    }
}

impl Eq for ShortStr {
    ghost laws = { nat_list_eq_equiv };
}

impl fmt::Debug for ShortStr {
    /// In quotes, as in the texts of methods.
    fn fmt<W: fmt::Write>(&self, f: &mut fmt::Formatter<W>) -> fmt::Result {
        write_quoted(f, self.as_bytes())
    }
}

impl ShortStr {
    /// The octets.
    pub fn as_bytes(&self) -> &[u8]
        ensures octets { result.now ≡ self.now }
        ensures short { length self.now ≤ 255 }
    {
        self.text.as_bytes()
    }

    /// The octets as text, if they are UTF-8.
    pub fn as_str(&self) -> Option<&str>
        ensures { MatchOption result (IsUtf8 self.now → ⊥) (λ text. text.now ≡ self.now) }
    {
        str::from_utf8(self.as_bytes()).ok()
    }

    /// How many octets.
    pub fn len(&self) -> usize
        ensures length { result ≡ length self.now }
        ensures short { result ≤ 255 }
    {
        self.as_bytes().len()
    }

    pub fn is_empty(&self) -> bool
        ensures { result ≡ (length self.now == 0) }
    {
        self.as_bytes().is_empty()
    }

    /// These octets. TooLong at 0 for more than 255.
    pub fn new(alloc: Global, octets: &[u8]) -> Result<ShortStr, ValueFault>
        ensures ok { IfOk result (λ s. s ≡ octets.now) }
        ensures too_long { (result ≡ Err (fault_at 0 TooLong)) ↔ (255 < length octets.now) }
        ensures err { IfErr result (λ e. (e ≡ fault_at 0 TooLong) ⊎ (e ≡ out_of_memory)) }
    {
        if octets.len() > 255 {
            return Err(ValueFault {
                at: 0,
                kind: ValueFaultKind::TooLong,
            });
        }
        Ok(ShortStr::prefix(alloc, octets, octets.len())?)
    }

    /// The octets of a text. TooLong at 0 for more than 255.
    pub fn text(alloc: Global, text: &str) -> Result<ShortStr, ValueFault>
        ensures ok { IfOk result (λ s. s ≡ text.now) }
        ensures too_long { (result ≡ Err (fault_at 0 TooLong)) ↔ (255 < length text.now) }
        ensures err { IfErr result (λ e. (e ≡ fault_at 0 TooLong) ⊎ (e ≡ out_of_memory)) }
    {
        ShortStr::new(alloc, text.as_bytes())
    }

    /// An equal short string.
    pub fn copy(&self) -> Result<ShortStr, OutOfMemory>
        ensures { IfOk result (λ s. s ≡ self.now) }
    {
        let text = self.text.copy()?;
        Ok(ShortStr { text })
    }

    /// The first `len` octets, of which there may be more: those after them are not part of the text.
    ///
    /// A text that lies among other octets is best given with those that follow it. A short one is then copied by whole
    /// words, which takes less time than [`new`](ShortStr::new) of its octets alone.
    #[inline(always)]
    pub fn prefix(alloc: Global, octets: &[u8], len: usize) -> Result<ShortStr, AllocError>
        requires within { len ≤ length octets.now }
        requires short { len ≤ 255 }
        ensures { IfOk result (λ s. s ≡ take len octets.now) }
    {
        let text = Octets::prefix(alloc, octets, len)?;
        Ok(ShortStr { text })
    }

    /// The first `len` octets, where they are few, and so many stand there that words can be copied in place of them.
    #[inline(always)]
    pub(crate) fn words(octets: &[u8], len: usize) -> Option<ShortStr>
        requires within { len ≤ length octets.now }
        requires short { len ≤ 255 }
        ensures { IfSome result (λ s. s ≡ take len octets.now) }
    {
        let text = Octets::words(octets, len)?;
        Some(ShortStr { text })
    }

    /// Whether it lies in place, so that no memory is to be given back for it.
    #[inline(always)]
    pub(crate) fn is_in_place(&self) -> bool {
        self.text.are_in_place()
    }
}
