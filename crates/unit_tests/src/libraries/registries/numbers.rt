ghost use Rattle.std.specs.Prelude.{◌<◌, length};

/// Numbers in which no order is seen. They are the same each time.
#[derive(Drop)]
pub struct Numbers {
    state: u64,
}

impl Numbers {
    pub fn new() -> Numbers {
        Numbers { state: 1 }
    }

    /// The next number. It is below a bound.
    pub fn below(&mut self, bound: usize) -> usize
        requires { 0 < bound }
        ensures { result < bound }
    {
        self.state = self
            .state
            .wrapping_mul(6_364_136_223_846_793_005)
            .wrapping_add(1_442_695_040_888_963_407);
        (self.state >> 33) as usize % bound
    }

    /// One of some texts.
    pub fn text(&mut self, texts: &[&'static str]) -> &'static str
        requires { 0 < length texts.now }
    {
        texts[self.below(texts.len())]
    }
}
