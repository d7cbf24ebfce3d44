ghost use Rattle.std.specs.Prelude.{◌≡◌, IfOk};
ghost use Rattle.std.specs.Int.{w16, w32, w64};
ghost use Rattle.dms_desc_bytes.specs.Reading.{byte_at, bytes_at, number_at, flag_at, counted_at, name_at, shift_down, text_at, long_at, truth_at, bits_at, literal_at, kind_of_bytes, kind_at};

use dms_base::{ItemKind, Memory, Name, Text, Value};
use std::alloc::Global;
use std::marker::Model;

/// Bytes that are read from the front. Past their end there are zeros.
#[derive(Drop)]
pub struct Input<'a> {
    rest: &'a [u8],
}

impl<'a> Model for Input<'a> {
    ghost use Rattle.std.specs.Prelude.{List, ℕ};

    ghost Value = { List ℕ };

    ghost view = { λ i. i.rest.now };
}

fn shift_down(n: u64) -> i64
    ensures { result ≡ shift_down n }
{
    if n < 1 << 63 {
        -(((1 << 63) - n - 1) as i64) - 1
    } else {
        (n - (1 << 63)) as i64
    }
}

fn kind_of_bytes(kind: u8, a: u8, b: u8, c: u8) -> ItemKind
    ensures { result ≡ kind_of_bytes kind a b c }
{
    if kind == 1 {
        return ItemKind::Alpha(a);
    }
    if kind == 2 {
        return ItemKind::Number(a, b, c == 1);
    }
    if kind == 4 {
        return ItemKind::Field(a);
    }
    if kind == 5 {
        return ItemKind::Link(u16::from_be_bytes([a, b]), c == 1);
    }
    ItemKind::Bool
}

impl<'a> Input<'a> {
    /// The bytes from their front on.
    pub fn new(bytes: &'a [u8]) -> Input<'a>
        ensures { result ≡ bytes.now }
    {
        Input { rest: bytes }
    }

    /// The next byte, 0 past the end.
    pub fn byte(&mut self) -> u8
        ensures { (result, self.new) ≡ byte_at self.old }
    {
        match self.rest {
            [] => 0,
            [byte, rest @ ..] => {
                self.rest = rest;
                *byte
            }
        }
    }

    /// The next bytes, none where so many aren't left.
    #[tactic(auto, unfolding(crate::specs::Reading::bytes_at))]
    pub fn bytes(&mut self, n: usize) -> &'a [u8]
        ensures { (result.now, self.new) ≡ bytes_at n self.old }
    {
        if self.rest.len() < n {
            self.rest = &[];
            return &[];
        }
        let (front, rest) = self.rest.split_at(n);
        self.rest = rest;
        front
    }

    /// The next number of two bytes.
    #[tactic(auto, unfolding(crate::specs::Reading::number_at))]
    pub fn u16(&mut self) -> u16
        ensures { (result, self.new) ≡ number_at w16 self.old }
    {
        let field = self.bytes(2);
        if field.len() < 2 {
            return 0;
        }
        u16::from_be_bytes([field[0], field[1]])
    }

    /// The next number of four bytes.
    #[tactic(auto, unfolding(crate::specs::Reading::number_at))]
    pub fn u32(&mut self) -> u32
        ensures { (result, self.new) ≡ number_at w32 self.old }
    {
        let field = self.bytes(4);
        if field.len() < 4 {
            return 0;
        }
        u32::from_be_bytes([field[0], field[1], field[2], field[3]])
    }

    /// The next number of eight bytes.
    #[tactic(auto, unfolding(crate::specs::Reading::number_at))]
    pub fn u64(&mut self) -> u64
        ensures { (result, self.new) ≡ number_at w64 self.old }
    {
        let field = self.bytes(8);
        if field.len() < 8 {
            return 0;
        }
        u64::from_be_bytes([
            field[0], field[1], field[2], field[3], field[4], field[5], field[6], field[7],
        ])
    }

    /// Yes where the next byte is 1.
    #[tactic(auto, unfolding(crate::specs::Reading::flag_at))]
    pub fn flag(&mut self) -> bool
        ensures { (result, self.new) ≡ flag_at self.old }
    {
        self.byte() == 1
    }

    /// The bytes behind their length.
    #[tactic(auto, unfolding(crate::specs::Reading::counted_at))]
    fn take_counted(&mut self) -> &'a [u8]
        ensures { (result.now, self.new) ≡ counted_at self.old }
    {
        let n = self.byte();
        self.bytes(n as usize)
    }

    /// The next name.
    #[tactic(auto, unfolding(crate::specs::Reading::name_at))]
    pub fn name(&mut self) -> Name
        ensures { (result, self.new) ≡ name_at self.old }
    {
        match Name::read(self.take_counted()) {
            None => Name::unknown(),
            Some(name) => name,
        }
    }

    #[tactic(auto, unfolding(crate::specs::Reading::text_at))]
    fn text(&mut self, alloc: Global) -> Result<Value, Memory>
        ensures { IfOk result (λ v. (v, self.new) ≡ text_at self.old) }
    {
        match Text::read(alloc, self.take_counted())? {
            None => Ok(Value::Null),
            Some(text) => Ok(Value::Text(text)),
        }
    }

    #[tactic(auto, unfolding(crate::specs::Reading::long_at))]
    fn number(&mut self) -> Value
        ensures { (result, self.new) ≡ long_at self.old }
    {
        Value::Number(shift_down(self.u64()))
    }

    #[tactic(auto, unfolding(crate::specs::Reading::truth_at))]
    fn truth(&mut self) -> Value
        ensures { (result, self.new) ≡ truth_at self.old }
    {
        Value::Bool(self.flag())
    }

    #[tactic(auto, unfolding(crate::specs::Reading::bits_at))]
    fn bits(&mut self) -> Value
        ensures { (result, self.new) ≡ bits_at self.old }
    {
        Value::Bits(self.u64())
    }

    /// The next literal. Answers Err where memory is refused.
    #[tactic(auto, unfolding(crate::specs::Reading::literal_at))]
    pub fn literal(&mut self, alloc: Global) -> Result<Value, Memory>
        ensures { IfOk result (λ v. (v, self.new) ≡ literal_at self.old) }
    {
        let kind = self.byte();
        if kind == 1 {
            return self.text(alloc);
        }
        if kind == 2 {
            return Ok(self.number());
        }
        if kind == 3 {
            return Ok(self.truth());
        }
        if kind == 4 {
            return Ok(self.bits());
        }
        Ok(Value::Null)
    }

    /// The next type of an item.
    #[tactic(auto, unfolding(crate::specs::Reading::kind_at))]
    pub fn kind(&mut self) -> ItemKind
        ensures { (result, self.new) ≡ kind_at self.old }
    {
        let kind = self.byte();
        let a = self.byte();
        let b = self.byte();
        let c = self.byte();
        kind_of_bytes(kind, a, b, c)
    }
}
