// Plans.
ghost use Rattle.std.specs.Prelude.{◌≡◌, ◌≤◌};
ghost use Rattle.job.specs.Plans.{empty as no_names, setup_named, named, name as naming, is_empty};

// No setup, in place of one. Plans go from head to head as bytes, in which FF is none, so an option of a byte would have two nones.
pub(crate) const NONE: u8 = 255;

// One setup, or none, for each of eight heads: for head h the setup `setups[h - 1]`, 255 for none.
#[derive(Clone, Copy, Debug, PartialEq, Eq)]
pub struct Plan {
    pub setups: [u8; 8],
}

impl Plan {
    // The plan that names no head.
    pub fn empty() -> Plan
        ensures { result ≡ no_names }
    {
        Plan { setups: [NONE; 8] }
    }

    // The setup that the plan names for a head, if it names one; a number that is no head has none.
    pub fn setup(&self, head: u8) -> Option<u8>
        ensures { result ≡ setup_named self.now head }
    {
        let place = head.checked_sub(1)?;
        match self.setups.get(place as usize) {
            Some(&setup) if setup < NONE => Some(setup),
            _ => None,
        }
    }

    pub fn names(&self, head: u8) -> bool
        ensures { result ≡ named self.now head }
    {
        self.setup(head).is_some()
    }

    // The same as `name` for a number that is known to be a head.
    fn name_known(mut self, head: u8, setup: u8) -> Plan
        requires { (1 ≤ head) × (head ≤ 8) }
        ensures { result ≡ naming self head setup }
    {
        self.setups[head as usize - 1] = setup;
        self
    }

    // The plan that names a setup for one more head; 255 takes the name back. A number that is no head changes nothing.
    pub fn name(self, head: u8, setup: u8) -> Plan
        ensures { result ≡ naming self head setup }
    {
        if head < 1 || head > 8 {
            return self;
        }
        self.name_known(head, setup)
    }

    // Whether the plan names none of the eight heads.
    pub fn is_empty(&self) -> bool
        ensures { result ≡ is_empty self.now }
    {
        (1..9).all(|head| !self.names(head))
    }
}
