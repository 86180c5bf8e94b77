//! Laws of the definitions, each proved as the contract of a function that does nothing.

ghost use Rattle.meta_schema.specs.AgreementLaw.{AgreesLaw, ToldAgreesLaw};
ghost use Rattle.meta_schema.specs.SchemaLaw.{SchemaOfLaw};

/// Of a whole document the schema tables tell exactly the plain tables.
pub fn schema_of_law()
    ensures { SchemaOfLaw }
{}

/// A sound document agrees with its schema exactly where it agrees as far as a store tells it, and
/// its tables have the metadata rows that the table of tables has for them.
pub fn agrees_law()
    ensures { AgreesLaw }
{}

/// A sound document, as a store tells it, agrees with its schema exactly where `agrees` says so. No
/// store tells the metadata row of a table: it is the one that the table of tables has for it.
pub fn told_agrees_law()
    ensures { ToldAgreesLaw }
{}
