//! Cookies in header maps. data/http.tsv says what its calls return.
use cookie::CookieJar;
use cookie_client::Client;
use cookie_http::{append_delta, jar_from_headers, remove_as_set, with_headers};
use cookie_theorems::exchange::exchange;
use cookie_theorems::{cookie_of_client, read_response};
use http_header::{HeaderMap, HeaderName, HeaderValue};
use rows::{Answer, Player, Step, moment};
use rows_children::{hash_keys, test_key};
use rows_clients::calls_of;
use rows_jars::Jars;
use std::alloc::Global;
use std::mem::replace;

/// A header map, and a jar whose hash has keys.
#[derive(Drop)]
pub struct Headers {
    headers: HeaderMap,
    jars: Jars,
}

impl Headers {
    /// An empty map and an empty jar, or nothing if memory ran out.
    pub fn new(alloc: Global) -> Option<Headers> {
        let (headers, mut jars) = (HeaderMap::new(alloc), Jars::new(alloc));
        jars.jar = CookieJar::with_hasher(alloc, hash_keys()?);
        Some(Headers { headers, jars })
    }

    // Changes the map, or reads it into the jar.
    fn change(&mut self, step: Step<'_>) -> Answer {
        match step.call {
            "Cookie:" => self.append(step, "cookie", &step.bytes()?)?,
            "Set-Cookie:" => self.append(step, "set-cookie", &step.bytes()?)?,
            "numbered" => self.append_numbered(step)?,
            "fill" => self.fill(step)?,
            "jar_from_headers" => {
                self.jars.jar = jar_from_headers(step.alloc, &self.headers).ok()?;
            }
            "with_headers" => {
                let jar = replace(&mut self.jars.jar, CookieJar::new(step.alloc));
                self.jars.jar = with_headers(jar, &self.headers).ok()?;
            }
            _ => return self.jars.answer(step),
        }
        step.done()
    }

    fn append(&mut self, step: Step<'_>, name: &str, value: &[u8]) -> Option<()> {
        let name = HeaderName::from_bytes(step.alloc, name.as_bytes()).ok()?;
        let value = HeaderValue::from_bytes(step.alloc, value).ok()?;
        self.headers.append(name, value).ok()?;
        Some(())
    }

    // Appends `Cookie` fields, each of some cookies with names of their own, as `100 10`.
    fn append_numbered(&mut self, step: Step<'_>) -> Option<()> {
        let (fields, count) = step.words.split_once(' ')?;
        let count: usize = count.parse().ok()?;
        for field in 0..fields.parse().ok()? {
            let (start, mut text) = (count.checked_mul(field)?, String::new(step.alloc));
            for number in start..start.checked_add(count)? {
                write!(text, "n{number}={number}; ").ok()?;
            }
            self.append(step, "cookie", text.as_bytes())?;
        }
        Some(())
    }

    // Appends this number of fields, each of a name of its own.
    fn fill(&mut self, step: Step<'_>) -> Option<()> {
        for number in 0..step.words.parse::<usize>().ok()? {
            let name = format!(in step.alloc; "x-{number}").ok()?;
            self.append(step, &name, b"1")?;
        }
        Some(())
    }

    // The map is then the next request of a client that holds `b=1` and has read the map as a response.
    fn send(&mut self, step: Step<'_>) -> Answer {
        let mut client = Client::new(step.alloc);
        client.hold("b", "1").ok()?;
        read_response(&mut client, &self.headers, moment()).ok()?;
        let value = cookie_of_client(&client).ok()?;
        self.headers = HeaderMap::new(step.alloc);
        self.headers.append("cookie", value).ok()?;
        fields(step, &self.headers, "cookie")
    }

    // Makes the calls on a new jar. The map is then the client's next request, and the jar is the jar of this request.
    fn exchange(&mut self, step: Step<'_>) -> Answer {
        let key = test_key();
        let exchanged = exchange(step.alloc, &calls_of(&key, step)?, moment()).ok()?;
        let answer = fields(step, &exchanged.response, "set-cookie");
        self.headers = exchanged.request;
        self.jars.jar = exchanged.next;
        answer
    }
}

impl Player for Headers {
    fn answer(&mut self, step: Step<'_>) -> Answer {
        let jar = &mut self.jars.jar;
        match step.call {
            "append_delta" => step.outcome(append_delta(step.alloc, jar, &mut self.headers)),
            "remove_as_set" => {
                step.outcome(remove_as_set(step.alloc, jar, &step.cookie()?, moment()))
            }
            "fields" => fields(step, &self.headers, step.words),
            "len" => step.printed(self.headers.len()),
            "client" => self.send(step),
            "exchange" => self.exchange(step),
            _ => self.change(step),
        }
    }
}

// The values of the fields of that name, in order.
fn fields(step: Step<'_>, headers: &HeaderMap, name: &str) -> Answer {
    let mut values = Vec::new(step.alloc);
    for value in headers.get_all(name) {
        let value = match value.as_bytes() {
            b"" => step.said("(empty)")?,
            bytes => step.escaped(bytes)?,
        };
        values.push(value).ok()?;
    }
    step.list(&values)
}
