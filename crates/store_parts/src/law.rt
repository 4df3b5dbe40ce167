//! The law that connects a part of a database with the whole database.
ghost use Rattle.std.specs.Prelude.{◌≡◌, ℕ, List, Option};
ghost use Rattle.std.specs.Global.{Vec};
ghost use Rattle.std.specs.declared.alloc.Global.{Global};
ghost use Rattle.sdbm_addr.specs.declared.KeyBytes.{KeyBytes};
ghost use Rattle.sdbm_addr.specs.declared.PageSize.{PageSize};
ghost use Rattle.sdbm_addr.specs.Database.{Database};
ghost use Rattle.sdbm_saves.specs.declared.part.Part.{Part};
ghost use Rattle.store_cmd.specs.declared.Entry.{Entry};
ghost use Rattle.store_parts.specs.Parts.{AreWhole, IsSameOnWhole, IsServed};

/// States the law in its contract; does nothing. A command about a key, on the database that `open_part` opened from one page,
/// has the same reply on every whole database with that page. If the whole files are as a save leaves them, the plan of
/// `plan_after` turns them into the files after the command.
pub fn same_on_whole()
    ensures { (part : Part) (kind : KeyBytes) (size : PageSize) (entry : Entry Global) (before after : Database) (numbers : List ℕ) (plan : Option (Vec ℕ)) → IsServed part kind size entry before after numbers plan
        → (db : Database) (pag : List ℕ) → db.kind ≡ kind → db.size ≡ size → AreWhole part numbers db pag → IsSameOnWhole part entry plan db pag }
{}
