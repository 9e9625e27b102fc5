ghost use Rattle.std.specs.Prelude.{◌≡◌, ◌≤◌};
ghost use Rattle.std.specs.Option.{option_map, SomeIff};

// How many values a draw chooses from: 1 to 32,768.
#[derive(Clone, Copy, PartialEq, Eq, Debug)]
pub struct Width {
    value: u16,
    ghost range: { (1 ≤ value) × (value ≤ 32768) },
}

impl Width {
    pub fn new(value: u16) -> Option<Width>
        ensures { SomeIff (option_map (λ w. w.value) result) ((1 ≤ value) × (value ≤ 32768)) value }
    {
        if (1..=32_768).contains(&value) {
            Some(Width { value })
        } else {
            None
        }
    }

    pub fn get(self) -> u16
        ensures { result ≡ self.value }
    {
        self.value
    }
}
