//! Conversations as texts, for tests over both stores.
use std::alloc::Global;
use std::process::Abort;

/// A message, by how its first line begins and its body, and its answer, by its status and its body.
#[derive(Drop)]
pub struct Exchange {
    pub start: String,
    pub body: String,
    pub status: &'static str,
    pub answered: String,
}

impl Exchange {
    /// The whole message.
    pub fn message(&self, rt: &impl Abort, alloc: Global) -> String {
        message(rt, alloc, self.start.as_str(), self.body.as_str())
    }

    /// The whole answer. A `GET` that isn't refused is answered plain text, any other message JSON.
    pub fn answer(&self, rt: &impl Abort, alloc: Global) -> String {
        let content_type = if self.start.as_str().starts_with("GET") && self.status == "200 OK" {
            "text/plain"
        } else {
            "application/json"
        };
        let body = self.answered.as_str();
        answer(rt, alloc, self.status, content_type, body)
    }

    // One of a script, behind the mark of its first line.
    fn read(rt: &impl Abort, alloc: Global, text: &str) -> Exchange {
        let (sent, answer) = text.split_once("\n< ").expect(rt, "an answer");
        let (line, more) = cut_at(sent, '\n');
        let (method, rest) = cut_at(line, ' ');
        let (path, body) = cut_at(rest, ' ');
        let (line, more_answered) = cut_at(answer, '\n');
        let (number, answered) = cut_at(line, ' ');
        Exchange {
            start: format!(in alloc; "{method} {path}").expect(rt, "memory"),
            body: body_of(rt, alloc, body, more),
            status: status_of(number).expect(rt, "a status"),
            answered: body_of(rt, alloc, answered, more_answered),
        }
    }
}

/// A message with this body and its length.
pub fn message(rt: &impl Abort, alloc: Global, start: &str, body: &str) -> String {
    let len = body.len();
    format!(in alloc; "{start} HTTP/1.1\r\nContent-Length: {len}\r\n\r\n{body}").expect(
        rt, "memory",
    )
}

/// An answer of this status, with this body, its type and its length.
pub fn answer(
    rt: &impl Abort,
    alloc: Global,
    status: &str,
    content_type: &str,
    body: &str,
) -> String {
    let len = body.len();
    format!(in alloc;
        "HTTP/1.1 {status}\r\nContent-Length: {len}\r\nContent-Type: {content_type}\r\n\r\n{body}"
    ).expect(rt, "memory")
}

// The text in front of the first such character, and behind it.
fn cut_at(text: &str, separator: char) -> (&str, &str) {
    match text.split_once(separator) {
        Some((front, behind)) => (front, behind),
        None => (text, ""),
    }
}

fn status_of(number: &str) -> Option<&'static str> {
    for status in ["200 OK", "400 Bad Request", "404 Not Found", "409 Conflict"] {
        if number.len() == 3 && status.starts_with(number) {
            return Some(status);
        }
    }
    None
}

// A body, of what stands in its message's line and of the lines under it.
fn body_of(rt: &impl Abort, alloc: Global, start: &str, more: &str) -> String {
    let mut body = String::from_str(alloc, start).expect(rt, "memory");
    for line in more.lines() {
        add_line(rt, &mut body, line);
    }
    body
}

fn add(rt: &impl Abort, body: &mut String, text: &str) {
    body.push_str(text).expect(rt, "memory");
}

fn add_line(rt: &impl Abort, body: &mut String, line: &str) {
    if let Some(text) = line.strip_prefix("+ ") {
        return add(rt, body, text);
    }
    let Some(text) = line.strip_prefix("|") else {
        return;
    };
    let text = match text.strip_prefix(" ") {
        Some(text) => text,
        None => text,
    };
    match text.strip_suffix("\\r") {
        Some(text) => {
            add(rt, body, text);
            add(rt, body, "\r\n");
        }
        None => {
            add(rt, body, text);
            add(rt, body, "\n");
        }
    }
}

// Whether the first line is empty, and each other one has a mark.
fn is_marked(script: &str) -> bool {
    for line in script.lines() {
        if !matches!(
            line.as_bytes().first(),
            None | Some(b'>' | b'<' | b'|' | b'+' | b'#')
        ) {
            return false;
        }
    }
    script.starts_with('\n')
}

/// The exchanges of a script: what is none ends the test. Its first line is empty, and each other one has a mark: `>` in
/// front of a message, which is its method, its path and, behind a space, its body; `<` in front of its answer, which
/// is the number of its status and its body. Under either a line with `+` goes on with the body, and one with `|` is a
/// line of the body, which ends in a line feed, and in a carriage return in front of it where the script has `\r`
/// there. A line with `#` is a remark.
pub fn exchanges_of(rt: &impl Abort, alloc: Global, script: &str) -> Vec<Exchange> {
    assert!(rt; is_marked(script), "a script");
    let mut exchanges = Vec::new(alloc);
    for text in script.split("\n> ").skip(1) {
        let exchange = Exchange::read(rt, alloc, text);
        exchanges.push(exchange).expect(rt, "memory");
    }
    exchanges
}
