//! A run of bits that is being written.
ghost use Rattle.std.specs.Prelude.{◌^◌, ◌<◌, ◌≤◌};

use crate::faults::MethodFault;

/// Bits of a run, gathered for the next octet.
#[derive(Clone, Copy)]
pub(crate) struct BitRun {
    /// the bits, the first one lowest
    number: u16,
    /// how many, up to eight
    count: u8,
    ghost below: { number < 2 ^ count },
    ghost within: { count ≤ 8 },
}

impl BitRun {
    ghost use Rattle.std.specs.Prelude.{◌≡◌, ◌+◌, ◌*◌, ◌^◌, ◌<◌, ◌++◌, length, take, OnOk, OnErr, IfOk, IfErr};
    ghost use Rattle.amqp_method.specs.Arguments.{bit};
    ghost use Rattle.amqp_method.specs.Faults.{out_of_memory};
    ghost use Rattle.amqp_method.specs.GatheredView.{gathered};
    ghost use Rattle.amqp_method.specs.Plain.{bit_value};
    ghost use Rattle.amqp_method.specs.Writing.{gathered_octets, none_gathered, written_for, gathered_after};

    /// No bits.
    pub(crate) fn none() -> BitRun
        ensures { gathered result ≡ none_gathered }
    {
        BitRun {
            number: 0,
            count: 0,
        }
    }

    /// Takes one bit more. An octet that is full is written.
    pub(crate) fn push(self, holds: bool, out: &mut Vec<u8>) -> Result<BitRun, MethodFault>
        ensures ok { OnOk result (out.new.items ≡ out.old.items ++ written_for (bit holds) (gathered self)) }
        ensures after { IfOk result (λ run. gathered run ≡ gathered_after (bit holds) (gathered self)) }
        ensures err { IfErr result (λ e. e ≡ out_of_memory) }
        ensures kept { OnErr result (take (length out.old.items) out.new.items ≡ out.old.items) }
    {
        let (number, count) = if self.count == 8 {
            out.push(self.number as u8)?;
            (0, 0)
        } else {
            (self.number, self.count)
        };
        Ok(BitRun::with_one(holds, number, count))
    }

    fn with_one(holds: bool, number: u16, count: u8) -> BitRun
        requires below { number < 2 ^ count }
        requires within { count < 8 }
        ensures number { result.number ≡ number + bit_value holds * 2 ^ count }
        ensures count { result.count ≡ count + 1 }
    {
        let weight = 1 << count;
        let number = if holds { number + weight } else { number };
        BitRun {
            number,
            count: count + 1,
        }
    }

    /// Writes the octet of the bits gathered, if there are any.
    pub(crate) fn finish(self, out: &mut Vec<u8>) -> Result<(), MethodFault>
        ensures ok { OnOk result (out.new.items ≡ out.old.items ++ gathered_octets (gathered self)) }
        ensures err { IfErr result (λ e. e ≡ out_of_memory) }
        ensures kept { OnErr result (take (length out.old.items) out.new.items ≡ out.old.items) }
    {
        if self.count > 0 {
            out.push(self.number as u8)?;
        }
        Ok(())
    }
}
