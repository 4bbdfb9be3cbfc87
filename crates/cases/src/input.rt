// Decimal numbers from standard input. Anything that is no digit and no minus sign stands between two numbers.
use protocol::{Item, Parts, Session, Settings, WIDTH};
use std::io::Stdin;

// A number as far as it was read, and whether it has begun.
#[derive(Clone, Copy)]
pub struct Value {
    magnitude: u64,
    negative: bool,
    begun: bool,
}

impl Value {
    fn none() -> Value {
        Value {
            magnitude: 0,
            negative: false,
            begun: false,
        }
    }

    // One byte more; none where the byte ends the number. What is past 64 bits becomes the largest number.
    fn with_byte(self, byte: u8) -> Option<Value> {
        match byte {
            b'-' => Some(Value {
                negative: true,
                begun: true,
                ..self
            }),
            b'0'..=b'9' => Some(Value {
                magnitude: self
                    .magnitude
                    .saturating_mul(10)
                    .saturating_add(u64::from(byte - b'0')),
                begun: true,
                ..self
            }),
            _ if self.begun => None,
            _ => Some(self),
        }
    }
}

// As an unsigned number; the nearest where it is none.
impl From<Value> for u64 {
    fn from(value: Value) -> u64 {
        if value.negative { 0 } else { value.magnitude }
    }
}

impl From<Value> for u32 {
    fn from(value: Value) -> u32 {
        u32::try_from(u64::from(value)).unwrap_or(u32::MAX)
    }
}

impl From<Value> for u8 {
    fn from(value: Value) -> u8 {
        u8::try_from(u64::from(value)).unwrap_or(u8::MAX)
    }
}

// As a signed number; the nearest where it is none.
impl From<Value> for i64 {
    fn from(value: Value) -> i64 {
        match i64::try_from(value.magnitude) {
            Ok(magnitude) if value.negative => -magnitude,
            Ok(magnitude) => magnitude,
            Err(_) if value.negative => i64::MIN,
            Err(_) => i64::MAX,
        }
    }
}

impl From<Value> for i32 {
    fn from(value: Value) -> i32 {
        let wide = i64::from(value);
        i32::try_from(wide).unwrap_or(if wide < 0 { i32::MIN } else { i32::MAX })
    }
}

// Is it other than 0.
impl From<Value> for bool {
    fn from(value: Value) -> bool {
        value.magnitude != 0
    }
}

// What was read: the bytes from `at` to `end` are still to be used. What follows them comes from `from`.
#[derive(Drop)]
pub struct Input {
    from: Stdin,
    bytes: [u8; 4096],
    end: usize,
    at: usize,
}

impl Input {
    // Nothing of the input is read yet.
    pub fn new(from: Stdin) -> Input {
        Input {
            from,
            bytes: [0; 4096],
            end: 0,
            at: 0,
        }
    }

    // The next byte; none where the input has ended, or a read fails.
    fn next(&mut self) -> Option<u8> {
        if self.at >= self.end {
            self.end = match streams::read_until_stopped(&mut self.from, &mut self.bytes) {
                Ok(count) => count,
                Err(stopped) => stopped.count,
            };
            self.at = 0;
        }
        if self.at >= self.end {
            return None;
        }
        let byte = self.bytes.get(self.at).copied();
        self.at = self.at.saturating_add(1);
        byte
    }

    // The next number; none at the end of the input.
    pub fn number(&mut self) -> Option<Value> {
        let mut value = Value::none();
        for _ in 0..u64::MAX {
            let Some(byte) = self.next() else {
                break;
            };
            let Some(more) = value.with_byte(byte) else {
                break;
            };
            value = more;
        }
        if value.begun { Some(value) } else { None }
    }

    // The next number as one of a type; 0 at the end of the input.
    pub fn given<T: From<Value>>(&mut self) -> T {
        T::from(self.number().unwrap_or(Value::none()))
    }

    // The next byte, whatever it is; 0 at the end of the input.
    fn byte(&mut self) -> u8 {
        self.next().unwrap_or(0)
    }

    // The front of a room that is as long as the next number says, or the whole of it.
    fn front<'a, T>(&mut self, room: &'a mut [T]) -> &'a mut [T] {
        let wanted = self.number().unwrap_or(Value::none()).magnitude;
        let count = usize::try_from(wanted)
            .unwrap_or(usize::MAX)
            .min(room.len());
        &mut room[..count]
    }

    // A table: its length and then its numbers, put at the front of a room. Numbers past the room are not read.
    pub fn table<'a, T: Copy + From<Value>>(&mut self, room: &'a mut [T]) -> &'a mut [T] {
        let table = self.front(room);
        for x in table.iter_mut() {
            *x = self.given();
        }
        table
    }

    // A text: its length, one byte that ends that number, and its bytes as they are.
    pub fn text<'a>(&mut self, room: &'a mut [u8]) -> &'a mut [u8] {
        let text = self.front(room);
        for x in text.iter_mut() {
            *x = self.byte();
        }
        text
    }

    // An output slice before it is written: its length, and the byte at all its places.
    pub fn blank<'a>(&mut self, room: &'a mut [u8]) -> &'a mut [u8] {
        let text = self.front(room);
        text.fill(self.given());
        text
    }

    // An element of each row by value: a table whose places behind the ones given are 0.
    pub fn item(&mut self) -> Item {
        let mut places: Item = [0; protocol::ROWS_WIDTH];
        self.table(&mut places);
        places
    }

    // An element of whole numbers.
    pub fn element(&mut self) -> [i32; WIDTH] {
        let mut places = [0i32; WIDTH];
        self.table(&mut places);
        places
    }

    // Five numbers: d, L, q, B, rows.
    pub fn settings(&mut self) -> Settings {
        Settings {
            degree: self.given(),
            depth: self.given(),
            modulus: self.given(),
            bound: self.given(),
            rows: self.given(),
        }
    }

    // A session record: settings, rounds done, 1 where it is closed, the claims and the eight challenges.
    pub fn session(&mut self) -> Session {
        let settings = self.settings();
        let done = self.given();
        let closed = self.given();
        let claims = self.item();
        let mut challenges = [0u32; 8];
        for e in challenges.iter_mut() {
            *e = self.given();
        }
        Session {
            settings,
            done,
            claims,
            challenges,
            closed,
        }
    }

    // Seven numbers: 1 where part 1 to 7 is there, else 0.
    pub fn parts(&mut self) -> Parts {
        Parts {
            key: self.given(),
            message: self.given(),
            commitment: self.given(),
            rounds: self.given(),
            challenges: self.given(),
            last: self.given(),
            claims: self.given(),
        }
    }
}
