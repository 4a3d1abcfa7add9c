ghost use Rattle.std.specs.Prelude.{◌≡◌, ◌<◌, IfSome};
ghost use Rattle.std.specs.List.{position_from};
ghost use Rattle.register_search.specs.Assignment.{are_rivals, takes_registers, with_choice};
ghost use Rattle.register_search.specs.Settling.{IsOnlyChoice};

/// How many choices there are: the seven registers, each by its number, and the pair.
pub const CHOICES: usize = 8;

/// The choice that takes registers 0 and 3 together.
pub const PAIR: usize = 7;

/// Which other classes a class must be apart from: its rivals.
#[derive(Clone, Copy, Debug)]
pub enum Group {
    /// None: the class takes no register.
    Absent,
    /// Every class that takes a register.
    Exclusive,
    /// The classes of the same number, and the exclusive ones. The number is below 32.
    Numbered(u8),
}

impl Group {
    /// Whether classes of the two groups must be apart.
    pub(crate) fn is_rival(self, other: Group) -> bool
        ensures { result ≡ are_rivals self other }
    {
        match (self, other) {
            (Group::Absent, _) | (_, Group::Absent) => false,
            (Group::Numbered(one), Group::Numbered(other)) => one == other,
            _ => true,
        }
    }
}

/// Something that is to have a register or the pair.
#[derive(Clone, Copy, Debug)]
pub struct Class {
    pub group: Group,
    /// Which of the choices it may take.
    pub choices: [bool; 8],
}

impl Class {
    /// Whether it is in a group that takes registers.
    pub fn takes_registers(&self) -> bool
        ensures { result ≡ takes_registers self.now.group }
    {
        !matches!(self.group, Group::Absent)
    }

    /// The class with this choice alone.
    pub fn with_choice(self, choice: usize) -> Class
        requires { choice < 8 }
        ensures { result ≡ with_choice choice self }
    {
        let mut choices = [false; CHOICES];
        choices[choice] = true;
        Class { choices, ..self }
    }

    /// The choice where the class may take but one.
    pub(crate) fn only_choice(&self) -> Option<usize>
        ensures { IfSome result (λ choice. IsOnlyChoice self.now choice) }
    {
        let mut only = None;
        for choice in 0..CHOICES {
            if !self.choices[choice] {
                continue;
            }
            if only.is_some() {
                return None;
            }
            only = Some(choice);
        }
        only
    }

    /// The first choice that the class may take.
    pub fn first_choice(&self) -> Option<usize>
        ensures { result ≡ position_from (λ b. b) 0 self.now.choices }
    {
        self.choices.iter().position(|choice| *choice)
    }
}
