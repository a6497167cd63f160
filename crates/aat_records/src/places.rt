//! What the clusters of glyphs count for C.
ghost use Rattle.std.specs.Prelude.{◌≡◌};
ghost use Rattle.aat_records.specs.Places.{placed};

/// What the clusters of glyphs count for C.
#[derive(Drop)]
pub enum Places {
    /// What the clusters of the typesetter count.
    Own,
    /// The units of these places: the clusters of the typesetter count the characters, which begin there.
    OfCharacters(Vec<u32>),
}

impl Places {
    /// A cluster for C.
    pub fn of(&self, cluster: u32) -> u32
        ensures { result ≡ placed self.now cluster }
    {
        match self {
            Places::Own => cluster,
            Places::OfCharacters(places) => places.get(cluster as usize).copied().unwrap_or(0),
        }
    }
}
