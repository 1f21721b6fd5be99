use crate::entry::Entry;

// What a text line says: the list number that is known after it, and an entry or nothing.
#[derive(Clone, Copy)]
pub struct Said {
    pub known: Option<u16>,
    pub entry: Option<Entry>,
}
