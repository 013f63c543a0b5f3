// The names of fields. They stand in one text, each behind a space, and behind it `=` and the form of its value; a field's number is the place of its name
// there. It is a text and no table of rows, since a first field may stand without its space, and is then looked for within the names.
ghost use Rattle.std.specs.Prelude.{◌≡◌, ◌<◌, length, IfSome};
ghost use Rattle.felica_named.specs.Names.{names, place_in};
ghost use Rattle.felica_named.specs.Fields.{place};

// The length of that text.
pub const NAMES: usize = 211;

#[tactic(auto, unfolding(crate::specs::Names::names))]
pub(crate) fn names() -> &'static [u8]
    ensures { result.now ≡ names }
{
    b" idm=8 first=W second=W numbers=W places=N modes=N data=B package=B system=2 request=1 slots=1 parent=2 index=2 node=2 property=2 type=1 operation=1 encryption=1 packet=1 challenge=C issue_id=8 issue_parameter=8"
}

// A field, with the place of its name. A challenge of 16 bytes has the place behind that of 8 bytes.
#[derive(Clone, Copy, Debug, PartialEq, Eq)]
pub enum Field {
    Idm = 0,
    First = 6,
    Second = 14,
    Numbers = 23,
    Places = 33,
    Modes = 42,
    Data = 50,
    Package = 57,
    System = 67,
    Request = 76,
    Slots = 86,
    Parent = 94,
    Index = 103,
    Node = 111,
    Property = 118,
    PropertyType = 129,
    Operation = 136,
    Encryption = 148,
    Packet = 161,
    Challenge = 170,
    LongChallenge = 171,
    IssueId = 182,
    IssueParameter = 193,
}

impl Field {
    // A method and no `From<Field> for usize`: `starts[usize::from(field)]` would not say that the number is the place of its name.
    #[tactic(auto, unfolding(crate::specs::Fields::place, crate::specs::Names::names, crate::specs::Names::place_in))]
    pub fn place(self) -> usize
        ensures number { result ≡ place self }
        ensures below { result < 211 }
    {
        self as usize
    }
}

// Where `key` stands in the table first.
pub(crate) fn place_in(table: &[u8], key: &[u8]) -> Option<usize>
    ensures place { result ≡ place_in key.now table.now }
    ensures inside { IfSome result (λ place. place < length table.now) }
{
    (0..table.len()).find(|place| table[*place..].starts_with(key))
}
