//! The labels of the nodes of a tree, and their sizes.

ghost use Rattle.std.specs.Prelude.{◌≡◌, ◌<◌, All, length, vec_len};
ghost use Rattle.hprof_by_label.specs.Texts.{AreApart};

/// The labels of the nodes of a tree of dominators, each label with a number, and the sizes of the nodes.
#[derive(Drop)]
pub struct NodeLabels {
    /// For each number its label.
    pub(crate) texts: Vec<String>,
    /// For each place the number of its node's label. That of place 0 is unspecified.
    pub(crate) of_places: Vec<u32>,
    /// For each place the bytes of its node's fields or elements.
    pub(crate) sizes: Vec<u64>,
    ghost within: { All (λ label. label < length texts.items) of_places.items },
    ghost apart: { AreApart texts.items },
    ghost sized: { vec_len sizes ≡ vec_len of_places },
}

impl NodeLabels {
    ghost use Rattle.std.specs.Prelude.{◌↔◌, [], IsTrue};
    ghost use Rattle.hprof_by_label.specs.Labels.{label_at, label_count, label_text, place_count, size_at};

    /// Returns the number of labels.
    pub fn len(&self) -> usize
        ensures { result ≡ label_count self.now }
    {
        self.texts.len()
    }

    /// Returns whether there is no label.
    pub fn is_empty(&self) -> bool
        ensures { IsTrue result ↔ (label_count self.now ≡ 0) }
    {
        self.len() == 0
    }

    /// Returns the label with a number.
    pub fn text(&self, number: usize) -> &str
        requires { number < label_count self.now }
        ensures { result.now ≡ label_text self.now number }
    {
        self.texts[number].as_str()
    }

    /// Returns the number of the label of the node at a place. That of place 0 is unspecified.
    #[inline(always)]
    pub fn number(&self, place: usize) -> usize
        requires { place < place_count self.now }
        ensures value { result ≡ label_at self.now place }
        ensures within { result < label_count self.now }
    {
        self.of_places[place] as usize
    }

    /// Returns the bytes of the fields or the elements of the node at a place, or 0 of what is no object.
    #[inline(always)]
    pub fn size(&self, place: usize) -> u64
        requires { place < place_count self.now }
        ensures { result ≡ size_at self.now place }
    {
        self.sizes[place]
    }
}
