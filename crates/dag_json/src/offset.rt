//! The byte of a text at which a token begins.

ghost use Rattle.std.specs.Prelude.{◌≡◌, ◌≤◌, length};
ghost use Rattle.json.specs.Lex.{class};
ghost use Rattle.dag_json.specs.Seek.{class_of, start_in, mode_behind, passed, seek, first_walk};

// The class of a byte for the lexer of JSON.
#[derive(Clone, Copy, Drop)]
enum Class {
    Quote,
    Backslash,
    Operator,
    Space,
    Other,
}

fn classify(byte: u8) -> Class
    ensures { class_of result ≡ class byte }
{
    match byte {
        b'"' => Class::Quote,
        b'\\' => Class::Backslash,
        b'{' | b'}' | b'[' | b']' | b':' | b',' => Class::Operator,
        b' ' | b'\t' | b'\n' | b'\r' => Class::Space,
        _ => Class::Other,
    }
}

// The place of a byte: between tokens, or in a word, a string or an escape.
#[derive(Clone, Copy, Drop)]
enum Mode {
    Between,
    Word,
    String,
    Escape,
}

impl Mode {
    // Returns the place of the next byte.
    fn after(self, class: Class) -> Mode
        ensures { result ≡ mode_behind self class }
    {
        match (self, class) {
            (Mode::Escape, _) => Mode::String,
            (Mode::String, Class::Quote) => Mode::Between,
            (Mode::String, Class::Backslash) => Mode::Escape,
            (Mode::String, _) => Mode::String,
            (_, Class::Operator) => Mode::Between,
            (_, Class::Space) => Mode::Between,
            (Mode::Between, Class::Quote) => Mode::String,
            _ => Mode::Word,
        }
    }
}

// The last token or comma that was passed. A comma or a colon may follow only some of them.
#[derive(Clone, Copy, Drop)]
enum Last {
    Opening,
    Comma,
    Value,
    String,
}

// The token, comma or colon that begins at a byte, if any.
#[derive(Clone, Copy, Drop)]
enum Start {
    Nothing,
    Comma,
    Colon,
    Token(Last),
}

fn token_start(mode: Mode, class: Class, byte: u8) -> Start
    ensures { result ≡ start_in mode class byte }
{
    match (mode, class) {
        (Mode::Between, Class::Quote) => Start::Token(Last::String),
        (Mode::Between, Class::Backslash | Class::Other) => Start::Token(Last::Value),
        (Mode::Between | Mode::Word, Class::Operator) => match byte {
            b'{' | b'[' => Start::Token(Last::Opening),
            b'}' | b']' => Start::Token(Last::Value),
            b',' => Start::Comma,
            _ => Start::Colon,
        },
        _ => Start::Nothing,
    }
}

// The progress in a text. `left` is the number of tokens that are still to be passed.
#[derive(Clone, Copy, Drop)]
struct Walk {
    mode: Mode,
    last: Last,
    left: usize,
}

impl Walk {
    // Passes a byte. Returns `None` if a token begins there and no token is left to pass, or if it
    // is a comma or a colon that can't be there. A comma after the last token is passed if an array
    // or an object is open.
    fn pass(self, byte: u8, may_pass: bool) -> Option<Walk>
        ensures { result ≡ passed may_pass self byte }
    {
        let class = classify(byte);
        let (last, left) = match (token_start(self.mode, class, byte), self.last) {
            (Start::Nothing, last) => (last, self.left),
            (Start::Comma, Last::Value | Last::String) if may_pass || self.left > 0 => (
                Last::Comma,
                self.left,
            ),
            (Start::Colon, Last::String) => (Last::Opening, self.left),
            (Start::Token(last), _) if self.left > 0 => (last, self.left - 1),
            _ => return None,
        };
        Some(Walk {
            mode: self.mode.after(class),
            last,
            left,
        })
    }
}

// Returns the start of the token after `taken` others, or of the comma or colon in its place. If
// there is no such token, it is the end of the text.
pub(crate) fn token_offset(text: &[u8], taken: usize, may_pass: bool) -> usize
    ensures value { result ≡ seek may_pass (first_walk taken) text.now }
    ensures within { result ≤ length text.now }
{
    let mut walk = Walk {
        mode: Mode::Between,
        last: Last::Opening,
        left: taken,
    };
    for (i, byte) in text.iter().enumerate() {
        match walk.pass(*byte, may_pass) {
            Some(next) => walk = next,
            None => return i,
        }
    }
    text.len()
}
