//! The line of a refusal, read back: what kind it is, its number and its name, and its fields by their names.

/// A refusal as its line tells it.
#[derive(Clone, Copy)]
pub struct Fault<'a> {
    /// The first word: `design`, `stimulus` and so on.
    pub kind: &'a str,
    /// The number.
    pub number: usize,
    /// The name.
    pub name: &'a str,
    /// What stands behind the name.
    pub fields: &'a str,
}

/// The refusal that a line tells, where it tells one.
pub fn fault_of(line: &str) -> Option<Fault<'_>> {
    let (kind, rest) = line.split_once(" fault ")?;
    let (number, rest) = rest.split_once(' ')?;
    let (name, fields) = rest.split_once(' ').unwrap_or((rest, ""));
    let number = number.parse::<usize>().ok()?;
    Some(Fault {
        kind,
        number,
        name,
        fields,
    })
}

impl<'a> Fault<'a> {
    /// The value of the field of this name, where there is one: fields are names and values by turns.
    pub fn field(&self, name: &str) -> Option<&'a str> {
        let mut key = None;
        for word in self.fields.split(' ') {
            match key {
                Some(it) if it == name => return Some(word),
                Some(_) => key = None,
                None => key = Some(word),
            }
        }
        None
    }

    /// The number that the field of this name has.
    pub fn number_in(&self, name: &str) -> Option<u64> {
        self.field(name)?.parse::<u64>().ok()
    }
}
