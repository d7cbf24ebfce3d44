ghost use Rattle.std.specs.Prelude.{◌≡◌, ◌++◌, ◌∷◌, [], OnErr, OnOk};

use crate::declarations::{Declaration, ItemDecl};
use dms_base::Memory;
use std::alloc::Global;
use std::marker::Model;

/// The items of a group.
#[derive(Debug, Drop)]
pub struct ItemDecls {
    kept: Vec<ItemDecl>,
}

impl Model for ItemDecls {
    ghost use Rattle.std.specs.Prelude.{List};
    ghost use Rattle.dasdl_parse.specs.declared.declarations.ItemDecl.{ItemDecl};

    ghost Value = { List ItemDecl };

    ghost view = { λ v. v.kept.items };
}

impl ItemDecls {
    /// The empty list.
    pub fn new(alloc: Global) -> ItemDecls
        ensures { result ≡ [] }
    {
        ItemDecls {
            kept: Vec::new(alloc),
        }
    }

    /// Adds one at the end. Answers Err where memory is refused, and then nothing changes.
    pub fn push(&mut self, item: ItemDecl) -> Result<(), Memory>
        ensures ok { OnOk result (self.new ≡ self.old ++ item ∷ []) }
        ensures err { OnErr result (self.new ≡ self.old) }
    {
        self.kept.push(item)?;
        Ok(())
    }

    /// The list.
    pub fn as_slice(&self) -> &[ItemDecl]
        ensures { result.now ≡ self.now }
    {
        self.kept.as_slice()
    }
}

/// What a schema declares, in text order.
#[derive(Debug, Drop)]
pub struct Declarations {
    kept: Vec<Declaration>,
}

impl Model for Declarations {
    ghost use Rattle.std.specs.Prelude.{List};
    ghost use Rattle.dasdl_parse.specs.declared.declarations.Declaration.{Declaration};
    ghost use Rattle.dasdl_parse.specs.contracts.declarations.Declaration as declaration;
    ghost use Rattle.std.specs.Coded.{coded_list};

    ghost Value = { List Declaration };

    ghost coded = { coded_list declaration.the_row.coded };

    ghost view = { λ v. v.kept.items };
}

impl Declarations {
    /// The empty list.
    pub fn new(alloc: Global) -> Declarations
        ensures { result ≡ [] }
    {
        Declarations {
            kept: Vec::new(alloc),
        }
    }

    /// Adds one at the end. Answers Err where memory is refused, and then nothing changes.
    pub fn push(&mut self, declaration: Declaration) -> Result<(), Memory>
        ensures ok { OnOk result (self.new ≡ self.old ++ declaration ∷ []) }
        ensures err { OnErr result (self.new ≡ self.old) }
    {
        self.kept.push(declaration)?;
        Ok(())
    }

    /// The list.
    pub fn as_slice(&self) -> &[Declaration]
        ensures { result.now ≡ self.now }
    {
        self.kept.as_slice()
    }
}
