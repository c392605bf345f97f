ghost use Rattle.std.specs.Prelude.{◌≡◌, ◌<◌, IfSome, option_copied};
ghost use Rattle.lot_json.specs.declared.tree.json.JsonMembers.{out-JsonMembers, size-JsonMembers};
ghost use Rattle.lot_json.specs.declared.tree.json.Json.{size-Json};

use crate::Number;
use lot_types::{Seq, Text};

/// A value of a JSON text.
#[cycle(json)]
#[derive(Drop)]
pub enum Json {
    Null,
    Bool(bool),
    Number(Number),
    /// A string.
    Text(Text),
    /// An array.
    Items(JsonItems),
    /// An object.
    Members(JsonMembers),
}

/// The items of an array, in the order of the text.
pub type JsonItems = Seq<Json>;

/// The members of an object, in the order of the text, also those whose name comes again later.
#[cycle(json)]
#[derive(Drop)]
pub struct JsonMembers {
    pairs: Seq<(Text, Json)>,
}

impl JsonMembers {
    ghost use Rattle.lot_json.specs.Lookup.{member};

    /// The members with these names and values.
    pub(crate) fn of(pairs: Seq<(Text, Json)>) -> JsonMembers
        ensures { (out-JsonMembers result).pairs ≡ pairs }
    {
        JsonMembers { pairs }
    }

    /// The members as pairs of a name and a value, in the order of the text.
    pub fn pairs(&self) -> &[(Text, Json)]
        ensures { result.now ≡ (out-JsonMembers self.now).pairs }
    {
        self.pairs.items()
    }

    /// The value of the last member of this name. `None` where that is null, and where no member has the name.
    #[tactic(auto, unfolding(crate::specs::Lookup::member))]
    pub fn get(&self, name: &str) -> Option<&Json>
        ensures value { option_copied result ≡ member name.now (out-JsonMembers self.now).pairs }
        ensures smaller { IfSome result (λ x. size-Json x.now < size-JsonMembers self.now) }
    {
        let pairs = self.pairs.items();
        let mut at = pairs.len();
        while at > 0 {
            at -= 1;
            let pair = &pairs[at];
            if pair.0.as_str() == name {
                return pair.1.unless_null();
            }
        }
        None
    }
}

impl Json {
    ghost use Rattle.lot_json.specs.Lookup.{unless_null};

    /// The value. `None` where it is null.
    fn unless_null(&self) -> Option<&Json>
        ensures value { option_copied result ≡ unless_null (Some self.now) }
        ensures same { IfSome result (λ x. x.now ≡ self.now) }
    {
        match self {
            Json::Null => None,
            _ => Some(self),
        }
    }
}
