use crate::text::Text;
use sqlite_items::Items;

/// The names by number; `cons` has a list for each datatype.
#[derive(Drop)]
pub struct Names {
    pub datatypes: Items<Text>,
    pub cons: Items<Items<Text>>,
    pub defs: Items<Text>,
    pub lemmas: Items<Text>,
    pub replicas: Items<Text>,
}
