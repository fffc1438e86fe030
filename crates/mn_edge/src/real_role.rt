// One role of the real host: what it can tell.
ghost use Rattle.std.specs.Prelude.{◌≡◌, string_bytes};
ghost use Rattle.mn_edge.specs.Part.{Fails, Begins, Finishes, one_more};
ghost use Rattle.mn_edge.specs.RealRoleView.{unused_role, silent};

use std::marker::Model;

#[derive(Drop)]
pub struct RealRole {
    name: Option<String>,
    active: bool,
    faults: u64,
    begins: u64,
}

impl Model for RealRole {
    ghost use Rattle.std.specs.Prelude.{string_bytes, None};
    ghost use Rattle.std.specs.Option.{option_map};
    ghost use Rattle.mn_edge.specs.RealRoleView.{RealRoleView};

    ghost Value = { RealRoleView };

    ghost view = { λ r. record {
      name = option_map (λ name. string_bytes name) r.name;
      active = r.active;
      faults = r.faults;
      begins = r.begins;
    } };
}

impl RealRole {
    pub fn new() -> RealRole
        ensures unused { result ≡ unused_role }
    {
        RealRole {
            name: None,
            active: false,
            faults: 0,
            begins: 0,
        }
    }

    pub fn fault(&mut self)
        ensures own { Fails (silent self.old) (silent self.new) }
        ensures counted { self.new.faults ≡ one_more self.old.faults }
    {
        self.faults = self.faults.saturating_add(1);
    }

    pub fn begin(&mut self, name: String)
        ensures own { Begins (string_bytes name) (silent self.old) (silent self.new) }
        ensures counted { self.new.faults ≡ self.old.faults }
    {
        self.name = Some(name);
        self.active = true;
        self.begins = self.begins.saturating_add(1);
    }

    pub fn finish(&mut self)
        ensures own { Finishes (silent self.old) (silent self.new) }
        ensures counted { self.new.faults ≡ self.old.faults }
    {
        self.active = false;
    }
}
